ghost use Rattle.std.specs.Prelude.{◌≡◌, ◌++◌, IfOk, Some, map};
ghost use Rattle.std.specs.Option.{option_copied};
ghost use Rattle.cells.specs.Parts.{AreParts};
ghost use Rattle.regions.specs.Settled.{possible};
ghost use Rattle.region_states.specs.region_basis.BasisOf.{basis_of};
ghost use Rattle.conflict_laws.specs.clash.ClashValues.{differ_under, values_tried, with_others};
ghost use Rattle.witness_state.specs.region_values.Changes.{both_changes, by_change};

use crate::region_values::changes::Change;
use crate::region_values::symbols::{has_several, value_under};
use crate::region_values::usual::{one_value, other_value};
use cells::Parts;
use edm_types::Prop;
use emc_base::{Memory, PropId};
use regions::{Region, Symbol};
use std::alloc::Global;

/// The changes of the usual values that are tried so that two symbols differ: none first, then those to other values of a property that
/// may have several. `Memory` comes where memory ran out.
pub fn changes_tried(
    alloc: Global,
    parts: &Parts<'_>,
    region: &Region,
    one: &Symbol,
    two: &Symbol,
) -> Result<Vec<Option<Change>>, Memory>
    requires { AreParts parts.now }
    ensures { IfOk result (λ tried. map (by_change (basis_of parts.now) region.now) tried.items ≡ values_tried (basis_of parts.now) region.now one.now two.now) }
{
    let mut tried = Vec::new(alloc);
    tried.push(None)?;
    add_others(alloc, parts, region, one, &mut tried)?;
    add_others(alloc, parts, region, two, &mut tried)?;
    Ok(tried)
}

// Adds the changes to other values of a symbol, if it is that of a property that may have several.
fn add_others(
    alloc: Global,
    parts: &Parts<'_>,
    region: &Region,
    symbol: &Symbol,
    tried: &mut Vec<Option<Change>>,
) -> Result<(), Memory>
    requires { AreParts parts.now }
    ensures { IfOk result (λ _. map (by_change (basis_of parts.now) region.now) tried.new.items ≡ map (by_change (basis_of parts.now) region.now) tried.old.items
        ++ with_others (basis_of parts.now) region.now symbol.now (possible parts.now.model.now region.now.atoms symbol.now)) }
{
    let Symbol::Prop(property) = symbol else {
        return Ok(());
    };
    if !has_several(region.atoms.as_slice(), *property) {
        return Ok(());
    }
    match parts.model.props.get(property.index as usize) {
        Some(declared) => add_both(alloc, parts, *property, declared, tried),
        None => Ok(()),
    }
}

// Adds the change to the one value of a property, and that to the other.
fn add_both(
    alloc: Global,
    parts: &Parts<'_>,
    property: PropId,
    declared: &Prop,
    tried: &mut Vec<Option<Change>>,
) -> Result<(), Memory>
    requires { AreParts parts.now }
    ensures { IfOk result (λ _. tried.new.items ≡ tried.old.items ++ both_changes (basis_of parts.now) property declared.now) }
{
    let one = one_value(alloc, parts, property, declared)?;
    let other = other_value(alloc, parts, property, declared)?;
    tried.push(Some(Change {
        property,
        value: one,
    }))?;
    tried.push(Some(Change {
        property,
        value: other,
    }))?;
    Ok(())
}

/// Whether two symbols have different values. `Memory` comes where memory ran out.
pub fn differ(
    alloc: Global,
    parts: &Parts<'_>,
    region: &Region,
    change: Option<&Change>,
    one: &Symbol,
    two: &Symbol,
) -> Result<bool, Memory>
    requires { AreParts parts.now }
    ensures { IfOk result (λ differ. differ ≡ differ_under one.now two.now (by_change (basis_of parts.now) region.now (option_copied change.entry))) }
{
    let first = value_under(alloc, parts, region, change, one)?;
    let second = value_under(alloc, parts, region, change, two)?;
    Ok(first != second)
}
