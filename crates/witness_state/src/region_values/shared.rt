ghost use Rattle.std.specs.Prelude.{◌≡◌, ◌<◌, ◌^◌, ◌&&◌, IfOk};
ghost use Rattle.round_trip.specs.Words.{props_of};
ghost use Rattle.cells.specs.Parts.{AreParts};
ghost use Rattle.schema_laws.specs.short_values.Places.{is_dependent};
ghost use Rattle.region_states.specs.region_basis.BasisOf.{basis_of};
ghost use Rattle.conflict_laws.specs.rival.RivalValues.{group_place, in_one_group, shared_index, shared_value, tells_other};

use crate::region_values::declared::{constants_of, group_of, is_dependent, props_of};
use crate::region_values::free::first_free;
use crate::region_values::indices::{FIRST_SHARED, SECOND_SHARED};
use crate::region_values::rivals::Rival;
use cells::Parts;
use edm_types::Prop;
use emc_base::{Memory, PropId, Value};
use regions::Region;
use std::alloc::Global;
use supported_states::fresh;

/// The value that properties in the group of this one share. `Memory` comes where memory ran out.
pub fn shared_value(
    alloc: Global,
    parts: &Parts<'_>,
    rival: &Rival<'_>,
    property: PropId,
    declared: &Prop,
) -> Result<Value, Memory>
    requires { AreParts parts.now }
    ensures { IfOk result (λ value. value ≡ shared_value (basis_of parts.now) rival.now.first.now rival.now.second.now property declared.now) }
{
    if tells_other(parts, property) {
        return fresh(
            alloc,
            &declared.kind,
            0,
            shared_index(parts, rival, property),
        );
    }
    first_free(alloc, &declared.kind, constants_of(parts, property))
}

// Whether some property in the group of this one is a dependent one.
fn tells_other(parts: &Parts<'_>, property: PropId) -> bool
    requires { AreParts parts.now }
    ensures { result ≡ tells_other (basis_of parts.now) property }
{
    for index in 0..parts.model.props.len() {
        let other = PropId {
            index: index as u32,
        };
        if tells(parts, property, other) {
            return true;
        }
    }
    false
}

// Whether another property is a dependent one in the group of this one.
fn tells(parts: &Parts<'_>, property: PropId, other: PropId) -> bool
    requires { AreParts parts.now }
    ensures { result ≡ (is_dependent parts.now.model.now other && in_one_group (basis_of parts.now) property other) }
{
    in_one_group(parts, property, other) && is_dependent(parts.model, other)
}

// Whether two properties are in one group.
fn in_one_group(parts: &Parts<'_>, one: PropId, other: PropId) -> bool
    requires { AreParts parts.now }
    ensures { result ≡ in_one_group (basis_of parts.now) one other }
{
    match (group_of(parts, one), group_of(parts, other)) {
        (Some(group), Some(same)) => group.index == same.index,
        _ => false,
    }
}

// The index of the value that both regions share in the group of a property: by the group's first property of the first region's type,
// or else of the second's.
fn shared_index(parts: &Parts<'_>, rival: &Rival<'_>, property: PropId) -> u64
    requires { AreParts parts.now }
    ensures index { result ≡ shared_index (basis_of parts.now) rival.now.first.now rival.now.second.now property }
    ensures bound { result < 2 ^ 48 }
{
    if let Some(place) = place_of(parts, property, rival.first) {
        return FIRST_SHARED + u64::from(place);
    }
    match place_of(parts, property, rival.second) {
        Some(place) => SECOND_SHARED + u64::from(place),
        None => FIRST_SHARED,
    }
}

// How many properties of the region's type stand before the first one in the group of this one; none where none is in it.
fn place_of(parts: &Parts<'_>, property: PropId, region: &Region) -> Option<u32>
    requires { AreParts parts.now }
    ensures { result ≡ group_place (basis_of parts.now) property (props_of parts.now.model.now region.now.ty) }
{
    for (place, other) in props_of(parts.model, region.ty).iter().enumerate() {
        if in_one_group(parts, property, *other) {
            return Some(place as u32);
        }
    }
    None
}
