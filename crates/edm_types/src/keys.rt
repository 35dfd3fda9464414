ghost use Rattle.std.specs.Prelude.{◌≡◌, IfOk, map};
ghost use Rattle.edm_types.specs.Entities.{key_of, value_beside};

use crate::data::Entity;
use crate::model::EntityModel;
use emc_base::{Key, Memory, PropId, Seq, Value};
use std::alloc::Global;

/// The values of the key properties of an entity, in key order; null for a property that it has no value of. `Memory` comes where there is
/// none for the copies.
pub fn key_of(alloc: Global, model: &EntityModel, entity: &Entity) -> Result<Key, Memory>
    ensures { IfOk result (λ key. key ≡ key_of model.now entity.now) }
{
    match model.types.get(entity.ty.index as usize) {
        Some(declared) => values_beside(
            alloc,
            declared.key.as_slice(),
            declared.props.as_slice(),
            entity.values.as_slice(),
        ),
        None => Ok(Seq::empty(alloc)),
    }
}

// The values that stand beside some properties.
fn values_beside(
    alloc: Global,
    wanted: &[PropId],
    props: &[PropId],
    values: &[Value],
) -> Result<Key, Memory>
    ensures { IfOk result (λ key. key ≡ map (λ prop. value_beside prop props.now values.now) wanted.now) }
{
    let mut key = Seq::with_room(alloc, wanted.len())?;
    for prop in wanted {
        let value = value_beside(alloc, *prop, props, values)?;
        key.push(value)?;
    }
    Ok(key)
}

// The value that stands beside a property, and null for none.
fn value_beside(
    alloc: Global,
    prop: PropId,
    props: &[PropId],
    values: &[Value],
) -> Result<Value, Memory>
    ensures { IfOk result (λ value. value ≡ value_beside prop props.now values.now) }
{
    for (other, value) in props.iter().zip(values) {
        if *other == prop {
            return value.copy(alloc);
        }
    }
    Ok(Value::Null)
}
