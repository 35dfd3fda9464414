ghost use Rattle.std.specs.Prelude.{◌≡◌, ◌≤◌, ◌<◌, ◌^◌, false, length};
ghost use Rattle.std.specs.Option.{option_map_or};
ghost use Rattle.round_trip.specs.soundness.mappings.Joined.{prop};
ghost use Rattle.round_trip.specs.Words.{key_props, props_of};
ghost use Rattle.cells.specs.Parts.{AreParts};
ghost use Rattle.regions.specs.region_laws.pattern.Allowed.{end_at};
ghost use Rattle.schema_laws.specs.short_values.Places.{is_among, is_dependent, place_in};
ghost use Rattle.region_states.specs.region_basis.BasisOf.{basis_of};

use cells::Parts;
use edm_types::{Assoc, End, EntityModel};
use emc_base::{GroupId, PropId, TypeId, Value};

/// The properties of a type, inherited ones included; none where there is no such type.
pub fn props_of(model: &EntityModel, ty: TypeId) -> &[PropId]
    ensures props { result.now ≡ props_of model.now ty }
    ensures bound { length result.now < 2 ^ 32 }
{
    match model.types.get(ty.index as usize) {
        Some(declared) => declared.props.as_slice(),
        None => &[],
    }
}

/// The key of a type; none where there is no such type.
pub fn key_props(model: &EntityModel, ty: TypeId) -> &[PropId]
    ensures key { result.now ≡ key_props model.now ty }
    ensures bound { length result.now < 2 ^ 32 }
{
    match model.types.get(ty.index as usize) {
        Some(declared) => declared.key.as_slice(),
        None => &[],
    }
}

/// Whether a property is one of these.
pub fn is_among(property: PropId, props: &[PropId]) -> bool
    ensures { result ≡ is_among property props.now }
{
    props.iter().any(|other| other.index == property.index)
}

/// How many of these stand before a property.
pub fn place_in(property: PropId, props: &[PropId]) -> usize
    ensures place { result ≡ place_in property props.now }
    ensures bound { result ≤ length props.now }
{
    for (place, other) in props.iter().enumerate() {
        if other.index == property.index {
            return place;
        }
    }
    props.len()
}

/// Whether a property is a dependent one of a constraint.
pub fn is_dependent(model: &EntityModel, property: PropId) -> bool
    ensures { result ≡ is_dependent model.now property }
{
    model
        .assocs
        .as_slice()
        .iter()
        .any(|assoc| has_dependent(assoc, property))
}

// Whether a property is a dependent one of the association's constraint.
fn has_dependent(assoc: &Assoc, property: PropId) -> bool
    ensures { result ≡ option_map_or (λ constraint. is_among property constraint.dependent) assoc.now.constraint false }
{
    match &assoc.constraint {
        Some(constraint) => is_among(property, constraint.dependent.as_slice()),
        None => false,
    }
}

/// The first end of an association, or the second.
pub fn end_at(first: bool, assoc: &Assoc) -> &End
    ensures { result.now ≡ end_at first assoc.now }
{
    if first { &assoc.first } else { &assoc.second }
}

/// The group of a property; none where there is no such property.
pub fn group_of(parts: &Parts<'_>, property: PropId) -> Option<GroupId>
    requires { AreParts parts.now }
    ensures { result ≡ (basis_of parts.now).group (prop property) }
{
    if property.index as usize >= parts.model.props.len() {
        return None;
    }
    Some(parts.cells.group_of_prop(property))
}

/// The constants of a property's group; none where there is no such property.
pub fn constants_of<'a>(parts: &Parts<'a>, property: PropId) -> &'a [Value]
    requires { AreParts parts.now }
    ensures { result.now ≡ (basis_of parts.now).constants (prop property) }
{
    match group_of(parts, property) {
        Some(group) => parts.cells.constants(group).as_slice(),
        None => &[],
    }
}
