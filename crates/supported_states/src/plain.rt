ghost use Rattle.std.specs.Prelude.{◌≡◌, ◌≤◌, IfOk, map, slice_get};
ghost use Rattle.std.specs.Option.{option_map_or};
ghost use Rattle.round_trip.specs.Words.{Null, key_props, props_of, value_beside};
ghost use Rattle.population.specs.Plain.{needed_value, plain, plain_value};

use crate::declared::{first_concrete, is_among, is_dependent, key_props, props_of};
use crate::numbers::ADDED;
use crate::values::{first_value, fresh};
use edm_types::{Entity, EntityModel, Prop};
use emc_base::{Key, Memory, PropId, Seq, TypeId, Value};
use std::alloc::Global;

/// The plain entity of the first concrete type at or below a type, with this key and of this number. `Memory` comes where memory ran out.
pub fn plain_entity(
    alloc: Global,
    model: &EntityModel,
    row: u32,
    number: u32,
    ty: TypeId,
    key: &Key,
) -> Result<Entity, Memory>
    requires { row ≤ 4 }
    ensures { IfOk result (λ entity. entity ≡ plain model.now row number ty key.now) }
{
    let concrete = first_concrete(model, ty);
    let values = plain_values(alloc, model, row, number, concrete, key)?;
    Ok(Entity {
        ty: concrete,
        values,
    })
}

// The values of the plain entity of a type.
fn plain_values(
    alloc: Global,
    model: &EntityModel,
    row: u32,
    number: u32,
    ty: TypeId,
    key: &Key,
) -> Result<Seq<Value>, Memory>
    requires { row ≤ 4 }
    ensures { IfOk result (λ values. values ≡ map (plain_value model.now row number (key_props model.now ty) key.now) (props_of model.now ty)) }
{
    let parts = key_props(model, ty);
    let mut values = Seq::empty(alloc);
    for property in props_of(model, ty) {
        if is_among(*property, parts) {
            values.push(value_beside(alloc, *property, parts, key.as_slice())?)?;
        } else {
            values.push(other_value(alloc, model, row, number, *property)?)?;
        }
    }
    Ok(values)
}

// The value of a property that is no part of the key; null where there is no such property.
fn other_value(
    alloc: Global,
    model: &EntityModel,
    row: u32,
    number: u32,
    property: PropId,
) -> Result<Value, Memory>
    requires { row ≤ 4 }
    ensures { IfOk result (λ value. value ≡ option_map_or (needed_value model.now row number property) (slice_get model.now.props property.index) Null) }
{
    match model.props.get(property.index as usize) {
        Some(declared) => needed_value(alloc, model, row, number, property, declared),
        None => Ok(Value::Null),
    }
}

// The value of a property where nothing is asked: null where it may be, of a dependent one the value of the number.
fn needed_value(
    alloc: Global,
    model: &EntityModel,
    row: u32,
    number: u32,
    property: PropId,
    declared: &Prop,
) -> Result<Value, Memory>
    requires { row ≤ 4 }
    ensures { IfOk result (λ value. value ≡ needed_value model.now row number property declared.now) }
{
    if declared.nullable {
        Ok(Value::Null)
    } else if is_dependent(model, property) {
        fresh(alloc, &declared.kind, row, ADDED + number as u64)
    } else {
        first_value(alloc, &declared.kind)
    }
}

/// The values that stand beside some properties.
pub(crate) fn values_beside(
    alloc: Global,
    wanted: &[PropId],
    props: &[PropId],
    values: &[Value],
) -> Result<Key, Memory>
    ensures { IfOk result (λ key. key ≡ map (λ prop. value_beside prop props.now values.now) wanted.now) }
{
    let mut key = Seq::empty(alloc);
    for prop in wanted {
        key.push(value_beside(alloc, *prop, props, values)?)?;
    }
    Ok(key)
}

// The value that stands beside a property, and null for none.
fn value_beside(
    alloc: Global,
    prop: PropId,
    props: &[PropId],
    values: &[Value],
) -> Result<Value, Memory>
    ensures { IfOk result (λ value. value ≡ value_beside prop props.now values.now) }
{
    for (other, value) in props.iter().zip(values) {
        if *other == prop {
            return value.copy(alloc);
        }
    }
    Ok(Value::Null)
}
