//! What a model declares, looked up as the definitions do.

ghost use Rattle.std.specs.Prelude.{◌≡◌, ◌&&◌, ◌<◌, ◌≤◌, ◌^◌, false, length, not};
ghost use Rattle.std.specs.Option.{option_map_or};
ghost use Rattle.round_trip.specs.Words.{dependent_end, key_of, key_props, principal_end, props_of};
ghost use Rattle.round_trip.specs.soundness.Lookups.{set_key};
ghost use Rattle.schema_laws.specs.short_values.Places.{is_among, is_dependent, place_in};
ghost use Rattle.schema_laws.specs.sound_demand.Deriving.{base_of, derives};
ghost use Rattle.schema_laws.specs.state_demand.Selecting.{same_key};
ghost use Rattle.population.specs.Plain.{first_concrete};
ghost use Rattle.population.specs.Numbered.{end_of};
ghost use Rattle.population.specs.Supported.{end_key, is_none, is_one};

use edm_types::{Assoc, Constraint, End, Entity, EntityModel, EntityType, Link, Mult};
use emc_base::{Key, PropId, SetId, TypeId};
use entity_state::has_values;

/// Whether a type is another or derived from it. The time is linear in the number of types above the first.
pub(crate) fn derives(model: &EntityModel, t: TypeId, u: TypeId) -> bool
    ensures { result ≡ derives model.now t u }
{
    let mut at = t;
    for _ in 0..model.types.len() {
        if at.index == u.index {
            return true;
        }
        let Some(base) = base_of(model, at) else {
            return false;
        };
        at = base;
    }
    at.index == u.index
}

// The base type of a type.
fn base_of(model: &EntityModel, t: TypeId) -> Option<TypeId>
    ensures { result ≡ base_of model.now t }
{
    match model.types.get(t.index as usize) {
        Some(declared) => declared.base,
        None => None,
    }
}

/// The first concrete type at or below a type, in the order of the model; the type itself where there is none.
pub(crate) fn first_concrete(model: &EntityModel, t: TypeId) -> TypeId
    ensures { result ≡ first_concrete model.now t }
{
    for (place, declared) in model.types.as_slice().iter().enumerate() {
        let id = TypeId {
            index: place as u32,
        };
        if is_concrete_under(model, id, declared, t) {
            return id;
        }
    }
    t
}

// Whether a type is concrete, and another or derived from it.
fn is_concrete_under(model: &EntityModel, id: TypeId, declared: &EntityType, t: TypeId) -> bool
    ensures { result ≡ not declared.now.is_abstract && derives model.now id t }
{
    !declared.is_abstract && derives(model, id, t)
}

/// The properties of a type, inherited ones included; none where there is no such type.
pub(crate) fn props_of(model: &EntityModel, t: TypeId) -> &[PropId]
    ensures { result.now ≡ props_of model.now t }
{
    match model.types.get(t.index as usize) {
        Some(declared) => declared.props.as_slice(),
        None => &[],
    }
}

/// The key of a type; none where there is no such type.
pub(crate) fn key_props(model: &EntityModel, t: TypeId) -> &[PropId]
    ensures key { result.now ≡ key_props model.now t }
    ensures bound { length result.now < 2 ^ 32 }
{
    match model.types.get(t.index as usize) {
        Some(declared) => declared.key.as_slice(),
        None => &[],
    }
}

/// The key of a set's entities; none where there is no such set.
pub(crate) fn set_key(model: &EntityModel, set: SetId) -> &[PropId]
    ensures key { result.now ≡ set_key model.now set }
    ensures bound { length result.now < 2 ^ 32 }
{
    match model.sets.get(set.index as usize) {
        Some(entry) => key_props(model, entry.element),
        None => &[],
    }
}

/// Whether a property is one of these.
pub(crate) fn is_among(property: PropId, props: &[PropId]) -> bool
    ensures { result ≡ is_among property props.now }
{
    props.iter().any(|other| other.index == property.index)
}

/// How many of these stand before a property.
pub(crate) fn place_in(property: PropId, props: &[PropId]) -> usize
    ensures place { result ≡ place_in property props.now }
    ensures bound { result ≤ length props.now }
{
    for (place, other) in props.iter().enumerate() {
        if other.index == property.index {
            return place;
        }
    }
    props.len()
}

/// Whether a property is a dependent one of a constraint.
pub(crate) fn is_dependent(model: &EntityModel, property: PropId) -> bool
    ensures { result ≡ is_dependent model.now property }
{
    model
        .assocs
        .as_slice()
        .iter()
        .any(|assoc| has_dependent(assoc, property))
}

// Whether a property is a dependent one of the association's constraint.
fn has_dependent(assoc: &Assoc, property: PropId) -> bool
    ensures { result ≡ option_map_or (λ constraint. is_among property constraint.dependent) assoc.now.constraint false }
{
    match &assoc.constraint {
        Some(constraint) => is_among(property, constraint.dependent.as_slice()),
        None => false,
    }
}

/// The end of an association at which the dependent entities stand.
pub(crate) fn dependent_end<'a>(assoc: &'a Assoc, constraint: &Constraint) -> &'a End
    ensures { result.now ≡ dependent_end assoc.now constraint.now }
{
    if constraint.dependent_first {
        &assoc.first
    } else {
        &assoc.second
    }
}

/// The end at which the principal entities stand.
pub(crate) fn principal_end<'a>(assoc: &'a Assoc, constraint: &Constraint) -> &'a End
    ensures { result.now ≡ principal_end assoc.now constraint.now }
{
    if constraint.dependent_first {
        &assoc.second
    } else {
        &assoc.first
    }
}

/// The first end of an association, or the second.
pub(crate) fn end_of(first: bool, assoc: &Assoc) -> &End
    ensures { result.now ≡ end_of first assoc.now }
{
    if first { &assoc.first } else { &assoc.second }
}

/// The key at an end of a link.
pub(crate) fn end_key(first: bool, link: &Link) -> &Key
    ensures { result.now ≡ end_key first link.now }
{
    if first { &link.first } else { &link.second }
}

/// Whether a multiplicity is `1`.
pub(crate) fn is_one(mult: Mult) -> bool
    ensures { result ≡ is_one mult }
{
    matches!(mult, Mult::One)
}

/// Whether an association has no constraint.
pub(crate) fn is_independent(assoc: &Assoc) -> bool
    ensures { result ≡ is_none assoc.now.constraint }
{
    assoc.constraint.is_none()
}

/// Whether this is an entity's key.
pub(crate) fn has_key(model: &EntityModel, entity: &Entity, key: &Key) -> bool
    ensures { result ≡ same_key key.now (key_of model.now entity.now) }
{
    has_values(model, entity, key_props(model, entity.ty), key.as_slice())
}
