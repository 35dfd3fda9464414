ghost use Rattle.std.specs.Prelude.{◌≡◌, IfOk, map, unwrap_or};
ghost use Rattle.std.specs.Option.{option_copied};
ghost use Rattle.round_trip.specs.Words.{Null, key_of, place_at, value_beside, value_of, values_of};

use edm_types::{Entity, EntityModel};
use emc_base::{Key, Memory, Place, PropId, Seq, Txt, Value};
use std::alloc::Global;

/// An entity's value of a property; `None` where it has none, which counts as null.
pub fn value_at<'a>(model: &EntityModel, entity: &'a Entity, prop: PropId) -> Option<&'a Value>
    ensures { unwrap_or (option_copied result) Null ≡ value_of model.now entity.now prop }
{
    match model.types.get(entity.ty.index as usize) {
        Some(declared) => value_beside(declared.props.as_slice(), entity.values.as_slice(), prop),
        None => None,
    }
}

// The value that stands beside a property.
fn value_beside<'a>(props: &[PropId], values: &'a [Value], prop: PropId) -> Option<&'a Value>
    ensures { unwrap_or (option_copied result) Null ≡ value_beside prop props.now values.now }
{
    for (other, value) in props.iter().zip(values) {
        if *other == prop {
            return Some(value);
        }
    }
    None
}

/// A copy of an entity's value of a property; null where it has none.
pub fn value_of(
    alloc: Global,
    model: &EntityModel,
    entity: &Entity,
    prop: PropId,
) -> Result<Value, Memory>
    ensures { IfOk result (λ value. value ≡ value_of model.now entity.now prop) }
{
    match value_at(model, entity, prop) {
        Some(value) => value.copy(alloc),
        None => Ok(Value::Null),
    }
}

/// An entity's values of several properties, in their order.
pub fn values_of(
    alloc: Global,
    model: &EntityModel,
    entity: &Entity,
    props: &[PropId],
) -> Result<Key, Memory>
    ensures { IfOk result (λ values. values ≡ values_of model.now entity.now props.now) }
{
    let mut values = Seq::with_room(alloc, props.len())?;
    for prop in props {
        let value = value_of(alloc, model, entity, *prop)?;
        values.push(value)?;
    }
    Ok(values)
}

/// An entity's key.
pub fn key_of(alloc: Global, model: &EntityModel, entity: &Entity) -> Result<Key, Memory>
    ensures { IfOk result (λ key. key ≡ key_of model.now entity.now) }
{
    edm_types::key_of(alloc, model, entity)
}

/// The keys of entities, in their order.
pub fn keys_of(alloc: Global, model: &EntityModel, entities: &[Entity]) -> Result<Vec<Key>, Memory>
    ensures { IfOk result (λ keys. keys.items ≡ map (key_of model.now) entities.now) }
{
    let mut keys = Vec::new(alloc);
    for entity in entities {
        let key = key_of(alloc, model, entity)?;
        keys.push(key)?;
    }
    Ok(keys)
}

/// The place of an entity's part in its set of this name.
pub fn place_of(
    alloc: Global,
    model: &EntityModel,
    name: &Txt,
    entity: &Entity,
    part: &Txt,
) -> Result<Place, Memory>
    ensures { IfOk result (λ place. place ≡ place_at name.now (key_of model.now entity.now) part.now) }
{
    Ok(Place {
        name: name.copy(alloc)?,
        key: key_of(alloc, model, entity)?,
        part: part.copy(alloc)?,
    })
}
