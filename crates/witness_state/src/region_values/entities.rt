ghost use Rattle.std.specs.Prelude.{◌≡◌, IfOk, Ok};
ghost use Rattle.regions.specs.Patterns.{pattern_of};
ghost use Rattle.regions.specs.declared.pattern.Focus.TheVariants as focus;
ghost use Rattle.cells.specs.Parts.{AreParts};
ghost use Rattle.region_states.specs.defaults.Defaults.{alone, changed, default_valuation};
ghost use Rattle.region_states.specs.region_basis.BasisOf.{basis_of};
ghost use Rattle.region_states.specs.Entities.{focus_entity};
ghost use Rattle.conflict_laws.specs.clash.ClashValues.{clash_values};
ghost use Rattle.conflict_laws.specs.rival.RivalValues.{first_values, second_values};
ghost use Rattle.conflict_laws.specs.same.SameValues.{with_one, with_other};

use crate::region_values::changes::{Change, changed_entity};
use crate::region_values::clashes::{changes_tried, differ};
use crate::region_values::rivals::{Rival, rival_entity};
use crate::region_values::usual::{one_value, other_value};
use cells::Parts;
use edm_types::Entity;
use emc_base::{Memory, PropId, Value, beside};
use regions::{Pattern, Region, Symbol};
use std::alloc::Global;
use symbolic_rows::region_pattern;

/// The entity of a region with the usual values. `Memory` comes where memory ran out.
pub fn usual_entity(alloc: Global, parts: &Parts<'_>, region: &Region) -> Result<Entity, Memory>
    requires { AreParts parts.now }
    ensures { IfOk result (λ entity. entity ≡ focus_entity (basis_of parts.now) region.now (default_valuation (basis_of parts.now) 0 region.now)) }
{
    changed_entity(alloc, parts, region, None)
}

/// The entity of a region with the first values by which two symbols differ. `Memory` comes where memory ran out.
pub fn clash_entity(
    alloc: Global,
    parts: &Parts<'_>,
    region: &Region,
    one: &Symbol,
    two: &Symbol,
) -> Result<Entity, Memory>
    requires { AreParts parts.now }
    ensures { IfOk result (λ entity. entity ≡ focus_entity (basis_of parts.now) region.now (clash_values (basis_of parts.now) region.now one.now two.now)) }
{
    let tried = changes_tried(alloc, parts, region, one, two)?;
    for change in tried.as_slice() {
        if differ(alloc, parts, region, change.as_ref(), one, two)? {
            return changed_entity(alloc, parts, region, change.as_ref());
        }
    }
    usual_entity(alloc, parts, region)
}

/// Two entities of a region with the usual values, but for one property, of which they have two others. `Memory` comes where memory ran
/// out.
pub fn lost_entities(
    alloc: Global,
    parts: &Parts<'_>,
    region: &Region,
    property: PropId,
) -> Result<(Entity, Entity), Memory>
    requires { AreParts parts.now }
    ensures one { IfOk result (λ pair. pair.0 ≡ focus_entity (basis_of parts.now) region.now (with_one (basis_of parts.now) region.now property)) }
    ensures other { IfOk result (λ pair. pair.1 ≡ focus_entity (basis_of parts.now) region.now (with_other (basis_of parts.now) region.now property)) }
{
    let one = one_entity(alloc, parts, region, property)?;
    beside(one, other_entity(alloc, parts, region, property))
}

// The entity of a region with the usual values, but for one property, of which it has the one value.
fn one_entity(
    alloc: Global,
    parts: &Parts<'_>,
    region: &Region,
    property: PropId,
) -> Result<Entity, Memory>
    requires { AreParts parts.now }
    ensures { IfOk result (λ entity. entity ≡ focus_entity (basis_of parts.now) region.now (with_one (basis_of parts.now) region.now property)) }
{
    let Some(declared) = parts.model.props.get(property.index as usize) else {
        return usual_entity(alloc, parts, region);
    };
    let value = one_value(alloc, parts, property, declared)?;
    entity_with(alloc, parts, region, property, value)
}

// The entity of a region with the usual values, but for one property, of which it has the other value.
fn other_entity(
    alloc: Global,
    parts: &Parts<'_>,
    region: &Region,
    property: PropId,
) -> Result<Entity, Memory>
    requires { AreParts parts.now }
    ensures { IfOk result (λ entity. entity ≡ focus_entity (basis_of parts.now) region.now (with_other (basis_of parts.now) region.now property)) }
{
    let Some(declared) = parts.model.props.get(property.index as usize) else {
        return usual_entity(alloc, parts, region);
    };
    let value = other_value(alloc, parts, property, declared)?;
    entity_with(alloc, parts, region, property, value)
}

// The entity of a region with the usual values, but for one property, of which it has this.
fn entity_with(
    alloc: Global,
    parts: &Parts<'_>,
    region: &Region,
    property: PropId,
    value: Value,
) -> Result<Entity, Memory>
    requires { AreParts parts.now }
    ensures { IfOk result (λ entity. entity ≡ focus_entity (basis_of parts.now) region.now
        (changed (default_valuation (basis_of parts.now) 0 region.now) (alone property value))) }
{
    let change = Change { property, value };
    changed_entity(alloc, parts, region, Some(&change))
}

/// An entity of each of two regions, with values by which they are written alike where they can be. `Memory` comes where memory ran out.
pub fn rival_entities(
    alloc: Global,
    parts: &Parts<'_>,
    one: &Region,
    two: &Region,
) -> Result<(Entity, Entity), Memory>
    requires { AreParts parts.now }
    ensures first { IfOk result (λ pair. pair.0 ≡ focus_entity (basis_of parts.now) one.now (first_values (basis_of parts.now) one.now two.now)) }
    ensures second { IfOk result (λ pair. pair.1 ≡ focus_entity (basis_of parts.now) two.now (second_values (basis_of parts.now) one.now two.now)) }
{
    let pattern = region_pattern(alloc, parts, one)?;
    let patterns = beside(pattern, region_pattern(alloc, parts, two))?;
    let entities = entities_by(alloc, parts, one, two, &patterns.0, &patterns.1);
    drop(patterns);
    entities
}

// The entities of two regions, by the rows that these regions' entities write.
fn entities_by(
    alloc: Global,
    parts: &Parts<'_>,
    one: &Region,
    two: &Region,
    one_pattern: &Pattern,
    two_pattern: &Pattern,
) -> Result<(Entity, Entity), Memory>
    requires parts { AreParts parts.now }
    requires pattern { one_pattern.now ≡ pattern_of (basis_of parts.now) (focus.Entity one.now) }
    requires other_pattern { two_pattern.now ≡ pattern_of (basis_of parts.now) (focus.Entity two.now) }
    ensures first { IfOk result (λ pair. pair.0 ≡ focus_entity (basis_of parts.now) one.now (first_values (basis_of parts.now) one.now two.now)) }
    ensures second { IfOk result (λ pair. pair.1 ≡ focus_entity (basis_of parts.now) two.now (second_values (basis_of parts.now) one.now two.now)) }
{
    let first = Rival {
        first: one,
        second: two,
        region: one,
        pattern: one_pattern,
        other: two,
        facing: two_pattern,
    };
    let second = Rival {
        first: one,
        second: two,
        region: two,
        pattern: two_pattern,
        other: one,
        facing: one_pattern,
    };
    let entity = rival_entity(alloc, parts, &first)?;
    beside(entity, rival_entity(alloc, parts, &second))
}
