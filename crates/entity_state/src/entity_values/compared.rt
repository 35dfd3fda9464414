ghost use Rattle.std.specs.Prelude.{◌≡◌, ◌≢◌, ◌↔◌, All, IsTrue};
ghost use Rattle.round_trip.specs.Words.{Null, value_of, values_of};

use crate::entity_values::values::value_at;
use edm_types::{Entity, EntityModel};
use emc_base::{PropId, Value};

/// Whether an entity's value of a property is null. One that isn't there is.
pub fn is_null_at(model: &EntityModel, entity: &Entity, prop: PropId) -> bool
    ensures { IsTrue result ↔ (value_of model.now entity.now prop ≡ Null) }
{
    match value_at(model, entity, prop) {
        Some(value) => is_null(value),
        None => true,
    }
}

/// Whether a value is null.
pub fn is_null(value: &Value) -> bool
    ensures { IsTrue result ↔ (value.now ≡ Null) }
{
    matches!(value, Value::Null)
}

fn is_same(one: &Value, other: &Value) -> bool
    ensures { IsTrue result ↔ (one.now ≡ other.now) }
{
    one == other
}

// Whether an entity has this value of a property.
fn has_value(model: &EntityModel, entity: &Entity, prop: PropId, value: &Value) -> bool
    ensures { IsTrue result ↔ (value_of model.now entity.now prop ≡ value.now) }
{
    match value_at(model, entity, prop) {
        Some(held) => is_same(held, value),
        None => is_same(&Value::Null, value),
    }
}

/// Whether an entity's values of these properties are these, one by one.
pub fn has_values(model: &EntityModel, entity: &Entity, props: &[PropId], values: &[Value]) -> bool
    ensures { IsTrue result ↔ (values_of model.now entity.now props.now ≡ values.now) }
{
    if props.len() != values.len() {
        return false;
    }
    for place in 0..props.len() {
        if !has_value(model, entity, props[place], &values[place]) {
            return false;
        }
    }
    true
}

// Whether two entities have one value of two properties.
fn is_same_value(
    model: &EntityModel,
    one: &Entity,
    prop: PropId,
    other: &Entity,
    other_prop: PropId,
) -> bool
    ensures { IsTrue result ↔ (value_of model.now one.now prop ≡ value_of model.now other.now other_prop) }
{
    match value_at(model, other, other_prop) {
        Some(value) => has_value(model, one, prop, value),
        None => is_null_at(model, one, prop),
    }
}

/// Whether an entity's values of these properties are another's of those, one by one.
pub fn have_same_values(
    model: &EntityModel,
    one: &Entity,
    props: &[PropId],
    other: &Entity,
    other_props: &[PropId],
) -> bool
    ensures { IsTrue result ↔ (values_of model.now one.now props.now ≡ values_of model.now other.now other_props.now) }
{
    if props.len() != other_props.len() {
        return false;
    }
    for place in 0..props.len() {
        if !is_same_value(model, one, props[place], other, other_props[place]) {
            return false;
        }
    }
    true
}

/// Whether none of an entity's values of these properties is null.
pub fn have_no_null(model: &EntityModel, entity: &Entity, props: &[PropId]) -> bool
    ensures { IsTrue result ↔ All (λ value. value ≢ Null) (values_of model.now entity.now props.now) }
{
    for prop in props {
        if is_null_at(model, entity, *prop) {
            return false;
        }
    }
    true
}
