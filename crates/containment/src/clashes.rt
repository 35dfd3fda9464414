ghost use Rattle.std.specs.Prelude.{◌≡◌, All, Any, IfNone, IfOk, IfSome, IsTrue, false, find};
ghost use Rattle.std.specs.Option.{option_copied};
ghost use Rattle.round_trip.specs.declared.FailKind.TheVariants as kind;
ghost use Rattle.regions.specs.Patterns.{pattern_of};
ghost use Rattle.regions.specs.Settled.{clashes};
ghost use Rattle.regions.specs.declared.pattern.Symbol.{Symbol};
ghost use Rattle.region_states.specs.region_basis.BasisOf.{basis_of};
ghost use Rattle.region_states.specs.declared.conflicts.conflict.Conflict.TheVariants as conflict;
ghost use Rattle.containment.specs.Cells.{ClashesIn, HasNoClash, are_apart};
ghost use Rattle.containment.specs.Found.{FindsOne};
ghost use Rattle.containment.specs.Lent.{focus_in};

use crate::lent::{FocusRef, atoms_of, focus_of};
use cells::Parts;
use condition_logic::AtomOf;
use edm_types::EntityModel;
use emc_base::{ColId, Memory, TableId};
use region_states::Conflict;
use regions::{Pattern, PatternRow, Symbol};
use std::alloc::Global;
use symbolic_rows::{clash, copy_symbol};

// Two symbols of a cell that can differ.
#[derive(Drop)]
struct Clash<'p> {
    table: TableId,
    col: ColId,
    one: &'p Symbol,
    two: &'p Symbol,
}

/// A clash at a focus of this pattern. `Memory` comes where there is none to tell it.
pub fn clash_at(
    alloc: Global,
    parts: &Parts<'_>,
    of: FocusRef<'_>,
    pattern: &Pattern,
) -> Result<Option<Conflict>, Memory>
    requires { pattern.now ≡ pattern_of (basis_of parts.now) (focus_in of) }
    ensures { IfOk result (FindsOne (basis_of parts.now) (focus_in of.entry) kind.Clash) }
{
    match clash_in(parts.model, atoms_of(of), pattern.rows.as_slice()) {
        Some(found) => Ok(Some(told(alloc, of, &found)?)),
        None => Ok(None),
    }
}

// A clash as a conflict at the focus.
fn told(alloc: Global, of: FocusRef<'_>, found: &Clash<'_>) -> Result<Conflict, Memory>
    ensures { IfOk result (λ made. made ≡ conflict.Clash (focus_in of.entry) found.now.table found.now.col found.now.one.now found.now.two.now) }
{
    Ok(Conflict::Clash {
        focus: focus_of(of)?,
        table: found.table,
        col: found.col,
        one: copy_symbol(alloc, found.one)?,
        two: copy_symbol(alloc, found.two)?,
    })
}

// A clash in one of these rows.
fn clash_in<'p>(model: &EntityModel, atoms: &[AtomOf], rows: &'p [PatternRow]) -> Option<Clash<'p>>
    ensures found { IfSome result (λ found. Any (ClashesIn model.now atoms.now found) rows.now) }
    ensures none { IfNone result (All (HasNoClash model.now atoms.now) rows.now) }
{
    for row in rows {
        if let Some(found) = clash_in_row(model, atoms, row) {
            return Some(found);
        }
    }
    None
}

// A clash in a row.
fn clash_in_row<'p>(model: &EntityModel, atoms: &[AtomOf], row: &'p PatternRow) -> Option<Clash<'p>>
    ensures found { IfSome result (λ found. ClashesIn model.now atoms.now found row.now) }
    ensures none { IfNone result (HasNoClash model.now atoms.now row.now) }
{
    for (index, cell) in row.cells.as_slice().iter().enumerate() {
        if let Some((one, two)) = clash_in_cell(model, atoms, cell.as_slice()) {
            return Some(Clash {
                table: row.table,
                col: ColId {
                    index: index as u32,
                },
                one,
                two,
            });
        }
    }
    None
}

// Two symbols of a cell that can differ.
fn clash_in_cell<'p>(
    model: &EntityModel,
    atoms: &[AtomOf],
    cell: &'p [Symbol],
) -> Option<(&'p Symbol, &'p Symbol)>
    ensures found { IfSome result (λ both. IsTrue (are_apart model.now atoms.now cell.now both.0.now both.1.now)) }
    ensures none { IfNone result ((one two : Symbol) → are_apart model.now atoms.now cell.now one two ≡ false) }
{
    for one in cell {
        if let Some(two) = clash_with(model, atoms, cell, one) {
            return Some((one, two));
        }
    }
    None
}

// A symbol of a cell that can differ from this one.
fn clash_with<'p>(
    model: &EntityModel,
    atoms: &[AtomOf],
    cell: &'p [Symbol],
    one: &Symbol,
) -> Option<&'p Symbol>
    ensures { option_copied result ≡ find (clashes model.now atoms.now one.now) cell.now }
{
    cell.iter().find(|two| clash(model, atoms, one, two))
}
