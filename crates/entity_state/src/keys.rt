ghost use Rattle.std.specs.Prelude.{◌≡◌, ◌↔◌, IsTrue};
ghost use Rattle.std.specs.Cmp.Lexicographic.{slice_cmp};
ghost use Rattle.emc_base.specs.Order.{value_cmp};
ghost use Rattle.round_trip.specs.Words.{key_props, value_of, values_of};
ghost use Rattle.entity_state.specs.InOrder.{entity_cmp, link_cmp};
ghost use Rattle.entity_state.specs.Lists.{HasKey};

use crate::entity_values::{has_values, value_at};
use edm_types::{Entity, EntityModel, Link};
use emc_base::{Key, PropId, TypeId, Value, compare, compare_keys};
use std::cmp::Ordering;

// The key properties of a type; none where the model has no such type.
fn key_props(model: &EntityModel, ty: TypeId) -> &[PropId]
    ensures { result.now ≡ key_props model.now ty }
{
    match model.types.get(ty.index as usize) {
        Some(declared) => declared.key.as_slice(),
        None => &[],
    }
}

// Whether this is an entity's key.
pub(crate) fn has_key(model: &EntityModel, entity: &Entity, key: &Key) -> bool
    ensures { IsTrue result ↔ HasKey model.now key.now entity.now }
{
    has_values(model, entity, key_props(model, entity.ty), key.as_slice())
}

// The order of two entities by a property of the one and another of the other.
fn compare_values(
    model: &EntityModel,
    one: &Entity,
    prop: PropId,
    two: &Entity,
    other: PropId,
) -> Ordering
    ensures { result ≡ value_cmp (value_of model.now one.now prop) (value_of model.now two.now other) }
{
    let null = Value::Null;
    let value = value_at(model, one, prop).unwrap_or(&null);
    compare(value, value_at(model, two, other).unwrap_or(&null))
}

// The order of two entities by some properties of each; what begins as the other does, and ends before it, comes first.
fn compare_by(
    model: &EntityModel,
    one: &Entity,
    props: &[PropId],
    two: &Entity,
    others: &[PropId],
) -> Ordering
    ensures { result ≡ slice_cmp value_cmp (values_of model.now one.now props.now) (values_of model.now two.now others.now) }
{
    for (i, prop) in props.iter().enumerate() {
        if i >= others.len() {
            return Ordering::Greater;
        }
        let order = compare_values(model, one, *prop, two, others[i]);
        if order.is_ne() {
            return order;
        }
    }
    if props.len() < others.len() {
        return Ordering::Less;
    }
    Ordering::Equal
}

// The order of two entities by their keys.
pub(crate) fn compare_entities(model: &EntityModel, one: &Entity, two: &Entity) -> Ordering
    ensures { result ≡ entity_cmp model.now one.now two.now }
{
    compare_by(
        model,
        one,
        key_props(model, one.ty),
        two,
        key_props(model, two.ty),
    )
}

// The order of two links by the keys at their first ends, and then by those at their second.
pub(crate) fn compare_links(one: &Link, two: &Link) -> Ordering
    ensures { result ≡ link_cmp one.now two.now }
{
    compare_keys(&one.first, &two.first).then_with(|| compare_keys(&one.second, &two.second))
}
