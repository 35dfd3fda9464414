ghost use Rattle.std.specs.Prelude.{◌≡◌, IfOk};
ghost use Rattle.std.specs.Option.{option_copied};
ghost use Rattle.cells.specs.Parts.{AreParts};
ghost use Rattle.region_states.specs.region_basis.BasisOf.{basis_of};
ghost use Rattle.region_states.specs.Entities.{focus_entity};
ghost use Rattle.witness_state.specs.region_values.Changes.{by_change};

use crate::region_values::declared::props_of;
use crate::region_values::usual::default_value;
use cells::Parts;
use edm_types::Entity;
use emc_base::{Memory, PropId, Seq, Value};
use regions::Region;
use std::alloc::Global;

/// Another value of one property.
#[derive(Drop)]
pub struct Change {
    pub property: PropId,
    pub value: Value,
}

/// The entity of a region with the usual values, and the change if there is one. `Memory` comes where memory ran out.
pub fn changed_entity(
    alloc: Global,
    parts: &Parts<'_>,
    region: &Region,
    change: Option<&Change>,
) -> Result<Entity, Memory>
    requires { AreParts parts.now }
    ensures { IfOk result (λ entity. entity ≡ focus_entity (basis_of parts.now) region.now (by_change (basis_of parts.now) region.now (option_copied change.entry))) }
{
    let mut values = Seq::empty(alloc);
    for property in props_of(parts.model, region.ty) {
        values.push(changed_value(alloc, parts, region, change, *property)?)?;
    }
    Ok(Entity {
        ty: region.ty,
        values,
    })
}

/// The value of a property: that of the change if this is of the property, else the usual one. `Memory` comes where memory ran out.
pub fn changed_value(
    alloc: Global,
    parts: &Parts<'_>,
    region: &Region,
    change: Option<&Change>,
    property: PropId,
) -> Result<Value, Memory>
    requires { AreParts parts.now }
    ensures { IfOk result (λ value. value ≡ (by_change (basis_of parts.now) region.now (option_copied change.entry)).prop property) }
{
    match change {
        Some(change) if property.index == change.property.index => change.value.copy(alloc),
        _ => default_value(alloc, parts, 0, region, property),
    }
}
