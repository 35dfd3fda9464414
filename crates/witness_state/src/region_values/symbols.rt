ghost use Rattle.std.specs.Prelude.{◌≡◌, Bool, IfOk};
ghost use Rattle.std.specs.Option.{option_copied, option_map_or};
ghost use Rattle.round_trip.specs.Words.{EntityModel};
ghost use Rattle.cells.specs.Parts.{AreParts};
ghost use Rattle.regions.specs.declared.pattern.Symbol.{Symbol};
ghost use Rattle.regions.specs.declared.pattern.Symbol.TheVariants as symbol;
ghost use Rattle.regions.specs.Patterns.{value_under};
ghost use Rattle.regions.specs.Settled.{multi, of_atom, possible, settle, settled_by};
ghost use Rattle.region_states.specs.conflicts.SameFacts.{is_multi};
ghost use Rattle.conflict_laws.specs.rival.RivalValues.{is_null_cell};
ghost use Rattle.region_states.specs.region_basis.BasisOf.{basis_of};
ghost use Rattle.witness_state.specs.region_values.Changes.{by_change};

use crate::region_values::changes::{Change, changed_value};
use crate::region_values::usual::{default_part, told_atom};
use cells::Parts;
use condition_logic::{Atom, AtomOf};
use emc_base::{Memory, PropId, Value};
use regions::{Region, Symbol};
use std::alloc::Global;

/// Whether a property may have several values, where these atoms are told.
pub fn has_several(atoms: &[AtomOf], property: PropId) -> bool
    ensures { (model : EntityModel) → result ≡ is_multi (possible model atoms.now (symbol.Prop property)) }
{
    match told_atom(atoms, property) {
        Some(Atom::Null | Atom::Is(_)) => false,
        Some(Atom::Other) | None => true,
    }
}

/// Whether a cell that lists these symbols holds null for certain, where these atoms are told.
pub fn is_null_cell(atoms: &[AtomOf], cell: &[Symbol]) -> bool
    ensures { (model : EntityModel) → result ≡ is_null_cell (settle model atoms.now cell.now) }
{
    match cell.first() {
        Some(symbol) => is_null_symbol(atoms, symbol),
        None => true,
    }
}

// Whether a symbol is null for certain.
fn is_null_symbol(atoms: &[AtomOf], symbol: &Symbol) -> bool
    ensures { (model : EntityModel) → result ≡ is_null_cell (settled_by symbol.now (possible model atoms.now symbol.now)) }
{
    match symbol {
        Symbol::Null => true,
        Symbol::Const(value) => *value == Value::Null,
        Symbol::Prop(property) => is_null_atom(told_atom(atoms, *property)),
        Symbol::End { .. } => false,
    }
}

// Whether a property is null for certain, of which this is told.
fn is_null_atom(told: Option<&Atom>) -> bool
    ensures { (one : Symbol) (nullable : Bool) → result ≡ is_null_cell (settled_by one (option_map_or of_atom (option_copied told.entry) (multi nullable))) }
{
    match told {
        Some(Atom::Null) => true,
        Some(Atom::Is(value)) => *value == Value::Null,
        Some(Atom::Other) | None => false,
    }
}

/// The value of a symbol by the usual values of a region's entity, with the change if there is one. `Memory` comes where memory ran out.
pub fn value_under(
    alloc: Global,
    parts: &Parts<'_>,
    region: &Region,
    change: Option<&Change>,
    symbol: &Symbol,
) -> Result<Value, Memory>
    requires { AreParts parts.now }
    ensures { IfOk result (λ value. value ≡ value_under (by_change (basis_of parts.now) region.now (option_copied change.entry)) symbol.now) }
{
    match symbol {
        Symbol::Null => Ok(Value::Null),
        Symbol::Const(value) => value.copy(alloc),
        Symbol::Prop(property) => changed_value(alloc, parts, region, change, *property),
        Symbol::End { assoc, first, prop } => default_part(alloc, parts, 0, *assoc, *first, *prop),
    }
}
