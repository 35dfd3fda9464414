ghost use Rattle.std.specs.Prelude.{◌≡◌, IfOk, IsPermutation};
ghost use Rattle.state_legality.specs.link_legality.Standing.{AreInOrder, AreKeyed, HasKeyed, IsInOrder, keyed};

use crate::link_legality::under::mark;
use edm_types::{Entity, EntityModel};
use emc_base::{Key, KeyRef, Memory, Seq};
use entity_state::key_of;
use std::alloc::Global;

/// The keys of the entities of each set, each with the number of its entity's type; `None` of a set at which no association without a constraint has an end.
pub fn keys_at_ends(
    alloc: Global,
    model: &EntityModel,
    entities: &[Seq<Entity>],
) -> Result<Vec<Option<Vec<(Key, u32)>>>, Memory>
    ensures { IfOk result (λ keys. AreKeyed model.now entities.now keys.items) }
{
    let wanted = sets_at_ends(alloc, model)?;
    let mut keys = Vec::with_capacity(alloc, entities.len())?;
    for (place, of_set) in entities.iter().enumerate() {
        let is_wanted = wanted.get(place).is_some_and(|wanted| *wanted);
        keys.push(keys_if(alloc, model, of_set.as_slice(), is_wanted)?)?;
    }
    Ok(keys)
}

// Marks at the places of sets at which associations without a constraint have an end.
fn sets_at_ends(alloc: Global, model: &EntityModel) -> Result<Vec<bool>, Memory> {
    let mut marks = vec![in alloc; false; model.sets.len()]?;
    for assoc in model.assocs.as_slice() {
        if assoc.constraint.is_none() {
            mark(&mut marks, assoc.first.set.index as usize);
            mark(&mut marks, assoc.second.set.index as usize);
        }
    }
    Ok(marks)
}

// The keys of entities, if they are wanted.
fn keys_if(
    alloc: Global,
    model: &EntityModel,
    entities: &[Entity],
    wanted: bool,
) -> Result<Option<Vec<(Key, u32)>>, Memory>
    ensures { IfOk result (HasKeyed model.now entities.now) }
{
    if !wanted {
        return Ok(None);
    }
    Ok(Some(keyed(alloc, model, entities)?))
}

// The keys of entities, each with the number of the entity's type.
fn keyed(alloc: Global, model: &EntityModel, entities: &[Entity]) -> Result<Vec<(Key, u32)>, Memory>
    ensures { IfOk result (λ keys. keys.items ≡ keyed model.now entities.now) }
{
    let mut keys = Vec::with_capacity(alloc, entities.len())?;
    for entity in entities {
        let key = key_of(alloc, model, entity)?;
        keys.push((key, entity.ty.index))?;
    }
    Ok(keys)
}

/// Puts the keys of each set in order.
pub fn standing_in_sets<'k>(
    alloc: Global,
    keys: &'k [Option<Vec<(Key, u32)>>],
) -> Result<Vec<Option<Vec<(KeyRef<'k>, u32)>>>, Memory>
    ensures { IfOk result (λ standing. AreInOrder keys.now standing.items) }
{
    let mut standing = Vec::with_capacity(alloc, keys.len())?;
    for of_set in keys {
        standing.push(in_order_if(alloc, of_set)?)?;
    }
    Ok(standing)
}

// Puts the keys of a set in order, where there are any.
fn in_order_if<'k>(
    alloc: Global,
    keys: &'k Option<Vec<(Key, u32)>>,
) -> Result<Option<Vec<(KeyRef<'k>, u32)>>, Memory>
    ensures { IfOk result (IsInOrder keys.now) }
{
    match keys {
        Some(keys) => Ok(Some(in_order(alloc, keys)?)),
        None => Ok(None),
    }
}

// Puts keys in order.
fn in_order<'k>(alloc: Global, keys: &'k [(Key, u32)]) -> Result<Vec<(KeyRef<'k>, u32)>, Memory>
    ensures { IfOk result (λ standing. IsPermutation keys.now standing.items) }
{
    let mut standing = lent(alloc, keys)?;
    standing.sort()?;
    Ok(standing)
}

// Lends keys, in their order.
fn lent<'k>(alloc: Global, keys: &'k [(Key, u32)]) -> Result<Vec<(KeyRef<'k>, u32)>, Memory>
    ensures { IfOk result (λ lent. lent.items ≡ keys.now) }
{
    let mut lent = Vec::with_capacity(alloc, keys.len())?;
    for one in keys {
        lent.push((KeyRef::of(&one.0), one.1))?;
    }
    Ok(lent)
}
