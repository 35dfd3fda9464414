ghost use Rattle.std.specs.Prelude.{◌≡◌, ◌≤◌, ◌++◌, ◌∷◌, [], IfOk};
ghost use Rattle.schema_laws.specs.short_values.Numbers.{numbers_from};
ghost use Rattle.population.specs.Numbered.{number_count};
ghost use Rattle.supported_states.specs.small_parts.Sought.{given_sought, keys_sought, numbers_sought, sought_in};

use crate::numbers::{number_count, numbered, numbered_key};
use crate::plain::plain_entity;
use crate::spots::{Pick, passes};
use edm_types::{Entity, EntityModel, EntitySet};
use emc_base::{Memory, Seq, SetId};
use entity_state::key_of;
use population::{Placed, PlacedKey, Supporting};
use std::alloc::Global;

/// What a supported state is made of, and which of its entities are looked for, by their keys.
#[derive(Clone, Copy)]
pub(crate) struct Sought<'s> {
    pub(crate) model: &'s EntityModel,
    pub(crate) row: u32,
    pub(crate) one: &'s Supporting,
    pub(crate) pick: Pick<'s>,
}

/// The entities of a set that are looked for; no other is made. `Memory` comes where memory ran out.
pub(crate) fn entities_sought(
    alloc: Global,
    sought: &Sought<'_>,
    set: SetId,
) -> Result<Seq<Entity>, Memory>
    requires { sought.now.row ≤ 4 }
    ensures { IfOk result (λ entities. entities ≡ sought_in sought.now set) }
{
    let mut entities = Seq::empty(alloc);
    if let Some(entry) = sought.model.sets.get(set.index as usize) {
        add_numbered(alloc, sought, set, entry, &mut entities)?;
        add_given(alloc, sought, set, &mut entities)?;
        add_plain(alloc, sought, set, entry, &mut entities)?;
    }
    Ok(entities)
}

// Adds those of numbers.
fn add_numbered(
    alloc: Global,
    sought: &Sought<'_>,
    set: SetId,
    entry: &EntitySet,
    entities: &mut Seq<Entity>,
) -> Result<(), Memory>
    requires { sought.now.row ≤ 4 }
    ensures { IfOk result (λ _. entities.new ≡ entities.old ++ numbers_sought sought.now set entry.now (numbers_from 0 (number_count sought.now.model.now))) }
{
    for number in 0..number_count(sought.model)? {
        add_number(alloc, sought, set, entry, number, entities)?;
    }
    Ok(())
}

// Adds that of a number, if it is looked for.
fn add_number(
    alloc: Global,
    sought: &Sought<'_>,
    set: SetId,
    entry: &EntitySet,
    number: u32,
    entities: &mut Seq<Entity>,
) -> Result<(), Memory>
    requires { sought.now.row ≤ 4 }
    ensures { IfOk result (λ _. entities.new ≡ entities.old ++ numbers_sought sought.now set entry.now (number ∷ [])) }
{
    let key = numbered_key(alloc, sought.model, sought.row, set, number)?;
    if !passes(&sought.pick, set, key) {
        return Ok(());
    }
    let entity = numbered(alloc, sought.model, sought.row, set, entry, number)?;
    entities.push(entity)
}

// Adds the given ones.
fn add_given(
    alloc: Global,
    sought: &Sought<'_>,
    set: SetId,
    entities: &mut Seq<Entity>,
) -> Result<(), Memory>
    ensures { IfOk result (λ _. entities.new ≡ entities.old ++ given_sought sought.now set sought.now.one.now.given) }
{
    for placed in sought.one.given.as_slice() {
        add_given_one(alloc, sought, set, placed, entities)?;
    }
    Ok(())
}

// Adds a copy of a given one, if it stands in the set and is looked for.
fn add_given_one(
    alloc: Global,
    sought: &Sought<'_>,
    set: SetId,
    placed: &Placed,
    entities: &mut Seq<Entity>,
) -> Result<(), Memory>
    ensures { IfOk result (λ _. entities.new ≡ entities.old ++ given_sought sought.now set (placed.now ∷ [])) }
{
    if placed.set.index != set.index {
        return Ok(());
    }
    let key = key_of(alloc, sought.model, &placed.entity)?;
    if !passes(&sought.pick, set, key) {
        return Ok(());
    }
    entities.push(copy_entity(alloc, &placed.entity)?)
}

// The same entity.
fn copy_entity(alloc: Global, entity: &Entity) -> Result<Entity, Memory>
    ensures { IfOk result (λ copy. copy ≡ entity.now) }
{
    Ok(Entity {
        ty: entity.ty,
        values: entity.values.copy(alloc)?,
    })
}

// Adds the plain ones of keys.
fn add_plain(
    alloc: Global,
    sought: &Sought<'_>,
    set: SetId,
    entry: &EntitySet,
    entities: &mut Seq<Entity>,
) -> Result<(), Memory>
    requires { sought.now.row ≤ 4 }
    ensures { IfOk result (λ _. entities.new ≡ entities.old ++ keys_sought sought.now set entry.now sought.now.one.now.keys) }
{
    for placed in sought.one.keys.as_slice() {
        add_plain_one(alloc, sought, set, entry, placed, entities)?;
    }
    Ok(())
}

// Adds the plain one of a key, if it is one of the set and looked for.
fn add_plain_one(
    alloc: Global,
    sought: &Sought<'_>,
    set: SetId,
    entry: &EntitySet,
    placed: &PlacedKey,
    entities: &mut Seq<Entity>,
) -> Result<(), Memory>
    requires { sought.now.row ≤ 4 }
    ensures { IfOk result (λ _. entities.new ≡ entities.old ++ keys_sought sought.now set entry.now (placed.now ∷ [])) }
{
    if placed.set.index != set.index {
        return Ok(());
    }
    let key = placed.key.copy(alloc)?;
    if !passes(&sought.pick, set, key) {
        return Ok(());
    }
    entities.push(plain_entity(
        alloc,
        sought.model,
        sought.row,
        0,
        entry.element,
        &placed.key,
    )?)
}
