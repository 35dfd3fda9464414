ghost use Rattle.std.specs.Prelude.{◌≡◌, All, Any, IfNone, IfOk, IfSome, IsTrue, false, find};
ghost use Rattle.std.specs.Option.{option_copied};
ghost use Rattle.round_trip.specs.declared.FailKind.TheVariants as kind;
ghost use Rattle.regions.specs.Patterns.{pattern_of};
ghost use Rattle.regions.specs.Settled.{possible};
ghost use Rattle.regions.specs.region_laws.pattern.Allowed.{told_of};
ghost use Rattle.regions.specs.declared.pattern.Symbol.{Symbol};
ghost use Rattle.region_states.specs.region_basis.BasisOf.{basis_of};
ghost use Rattle.region_states.specs.conflicts.Facts.{can_be_null, stands_for_null};
ghost use Rattle.region_states.specs.declared.conflicts.conflict.Conflict.TheVariants as conflict;
ghost use Rattle.containment.specs.Cells.{GapsIn, HasNoGap};
ghost use Rattle.containment.specs.Found.{FindsOne};
ghost use Rattle.containment.specs.Lent.{focus_in, symbol_of};

use crate::lent::{FocusRef, atoms_of, focus_of};
use crate::shown::cell_in;
use cells::Parts;
use emc_base::{ColId, Memory, TableId};
use region_states::Conflict;
use regions::{Pattern, PatternRow, Symbol};
use std::alloc::Global;
use symbolic_rows::{can_be_null, copy_symbol, possible};

// Why a cell may be null.
#[derive(Drop)]
enum Lack<'p> {
    // It lists nothing.
    Nothing,
    // It lists this symbol, which can be null.
    By(&'p Symbol),
}

// A cell that may be null, in a column that isn't nullable.
#[derive(Drop)]
struct Gap<'p> {
    table: TableId,
    col: ColId,
    lack: Lack<'p>,
}

/// A null in a column that isn't nullable, at a focus of this pattern. `Memory` comes where there is none to tell it.
pub fn null_at(
    alloc: Global,
    parts: &Parts<'_>,
    of: FocusRef<'_>,
    pattern: &Pattern,
) -> Result<Option<Conflict>, Memory>
    requires { pattern.now ≡ pattern_of (basis_of parts.now) (focus_in of) }
    ensures { IfOk result (FindsOne (basis_of parts.now) (focus_in of.entry) kind.Null) }
{
    match gap_in(parts, of, pattern.rows.as_slice()) {
        Some(gap) => Ok(Some(told(alloc, of, &gap)?)),
        None => Ok(None),
    }
}

// A gap as a conflict at the focus.
fn told(alloc: Global, of: FocusRef<'_>, gap: &Gap<'_>) -> Result<Conflict, Memory>
    ensures { IfOk result (λ made. made ≡ conflict.NullIn (focus_in of.entry) gap.now.table gap.now.col (symbol_of gap.now.lack)) }
{
    Ok(Conflict::NullIn {
        focus: focus_of(of)?,
        table: gap.table,
        col: gap.col,
        symbol: symbol_of(alloc, &gap.lack)?,
    })
}

// The symbol that stands for null.
fn symbol_of(alloc: Global, lack: &Lack<'_>) -> Result<Symbol, Memory>
    ensures { IfOk result (λ one. one ≡ symbol_of lack.now) }
{
    match lack {
        Lack::Nothing => Ok(Symbol::Null),
        Lack::By(symbol) => copy_symbol(alloc, symbol),
    }
}

// A gap in one of these rows.
fn gap_in<'p>(parts: &Parts<'_>, of: FocusRef<'_>, rows: &'p [PatternRow]) -> Option<Gap<'p>>
    ensures found { IfSome result (λ gap. Any (GapsIn (basis_of parts.now) (focus_in of.entry) gap) rows.now) }
    ensures none { IfNone result (All (HasNoGap (basis_of parts.now) (focus_in of.entry)) rows.now) }
{
    for row in rows {
        if let Some(gap) = gap_in_row(parts, of, row) {
            return Some(gap);
        }
    }
    None
}

// A gap in a row.
fn gap_in_row<'p>(parts: &Parts<'_>, of: FocusRef<'_>, row: &'p PatternRow) -> Option<Gap<'p>>
    ensures found { IfSome result (λ gap. GapsIn (basis_of parts.now) (focus_in of.entry) gap row.now) }
    ensures none { IfNone result (HasNoGap (basis_of parts.now) (focus_in of.entry) row.now) }
{
    let table = parts.store.tables.get(row.table.index as usize)?;
    for (index, column) in table.cols.as_slice().iter().enumerate() {
        if column.nullable {
            continue;
        }
        let col = ColId {
            index: index as u32,
        };
        if let Some(lack) = lack_in(parts, of, cell_in(row, col)) {
            return Some(Gap {
                table: row.table,
                col,
                lack,
            });
        }
    }
    None
}

// Why a cell may be null; `None` where it can't.
fn lack_in<'p>(parts: &Parts<'_>, of: FocusRef<'_>, cell: &'p [Symbol]) -> Option<Lack<'p>>
    ensures found { IfSome result (λ lack. IsTrue (stands_for_null (basis_of parts.now) (focus_in of.entry) cell.now (symbol_of lack))) }
    ensures none { IfNone result ((one : Symbol) → stands_for_null (basis_of parts.now) (focus_in of.entry) cell.now one ≡ false) }
{
    if cell.is_empty() {
        return Some(Lack::Nothing);
    }
    let symbol = nullable_in(parts, of, cell)?;
    Some(Lack::By(symbol))
}

// A symbol of a cell that can be null.
fn nullable_in<'p>(parts: &Parts<'_>, of: FocusRef<'_>, cell: &'p [Symbol]) -> Option<&'p Symbol>
    ensures { option_copied result ≡ find (λ one. can_be_null (possible (basis_of parts.now).schema.model (told_of (focus_in of.entry)) one)) cell.now }
{
    let atoms = atoms_of(of);
    cell.iter().find(|symbol| can_be_null(&possible(parts.model, atoms, symbol)))
}
