ghost use Rattle.std.specs.Prelude.{◌≡◌, ◌≤◌, ◌==◌, ◌&&◌, ◌++◌, IfOk, flat_map, map};
ghost use Rattle.std.specs.List.{list_any};
ghost use Rattle.schema_laws.specs.short_values.Numbers.{numbers_from};
ghost use Rattle.schema_laws.specs.state_demand.MadeTables.{distinct};
ghost use Rattle.schema_laws.specs.state_demand.Selecting.{same_key};
ghost use Rattle.round_trip.specs.Words.{key_of};
ghost use Rattle.population.specs.Numbered.{number_count, numbered_key};
ghost use Rattle.population.specs.Support.{free_keys, is_taken, same_placed, steps, support};
ghost use Rattle.population.specs.Supported.{given_in};

use crate::asking::add_principals;
use crate::declared::has_key;
use crate::distinct::{append, distinct};
use crate::numbers::{number_count, numbered_key};
use crate::plain::plain_entity;
use crate::spots::copy_placed;
use edm_types::EntityModel;
use emc_base::{Memory, Seq};
use population::{Placed, PlacedKey};
use std::alloc::Global;

/// The support of wanted keys: these and what steps lead to, as far as no given entity and none of a number has the key. Each level of steps
/// holds a key once. `Memory` comes where memory ran out.
pub fn support(
    alloc: Global,
    model: &EntityModel,
    row: u32,
    given: &Seq<Placed>,
    wanted: &Seq<PlacedKey>,
) -> Result<Seq<PlacedKey>, Memory>
    requires { row ≤ 4 }
    ensures { IfOk result (λ keys. keys ≡ support model.now row given.now wanted.now) }
{
    let mut all = Seq::empty(alloc);
    let mut level = first_level(alloc, model, row, given.as_slice(), wanted.as_slice())?;
    for _ in 0..model.sets.len() {
        append(alloc, &mut all, level.as_slice())?;
        level = next_level(alloc, model, row, given.as_slice(), level.as_slice())?;
    }
    append(alloc, &mut all, level.as_slice())?;
    distinct(alloc, all)
}

// The wanted keys that nothing else has, each once.
fn first_level(
    alloc: Global,
    model: &EntityModel,
    row: u32,
    given: &[Placed],
    wanted: &[PlacedKey],
) -> Result<Seq<PlacedKey>, Memory>
    requires { row ≤ 4 }
    ensures { IfOk result (λ keys. keys ≡ free_keys model.now row given.now (distinct same_placed wanted.now)) }
{
    let mut all = Seq::empty(alloc);
    append(alloc, &mut all, wanted)?;
    free_of(alloc, model, row, given, all)
}

// What a step leads to from these keys and nothing else has, each once.
fn next_level(
    alloc: Global,
    model: &EntityModel,
    row: u32,
    given: &[Placed],
    level: &[PlacedKey],
) -> Result<Seq<PlacedKey>, Memory>
    requires { row ≤ 4 }
    ensures { IfOk result (λ keys. keys ≡ free_keys model.now row given.now (distinct same_placed (flat_map (steps model.now row) level.now))) }
{
    let mut all = Seq::empty(alloc);
    for from in level {
        add_steps(alloc, model, row, from, &mut all)?;
    }
    free_of(alloc, model, row, given, all)
}

// Adds the principals of the plain entity with a key.
fn add_steps(
    alloc: Global,
    model: &EntityModel,
    row: u32,
    from: &PlacedKey,
    keys: &mut Seq<PlacedKey>,
) -> Result<(), Memory>
    requires { row ≤ 4 }
    ensures { IfOk result (λ _. keys.new ≡ keys.old ++ steps model.now row from.now) }
{
    match model.sets.get(from.set.index as usize) {
        Some(set) => {
            let entity = plain_entity(alloc, model, row, 0, set.element, &from.key)?;
            add_principals(alloc, model, from.set, &entity, keys)
        }
        None => Ok(()),
    }
}

// Those of these keys that nothing else has, each once.
fn free_of(
    alloc: Global,
    model: &EntityModel,
    row: u32,
    given: &[Placed],
    keys: Seq<PlacedKey>,
) -> Result<Seq<PlacedKey>, Memory>
    requires { row ≤ 4 }
    ensures { IfOk result (λ free. free ≡ free_keys model.now row given.now (distinct same_placed keys)) }
{
    let once = distinct(alloc, keys)?;
    let mut free = Seq::empty(alloc);
    for placed in once.as_slice() {
        if !is_taken(alloc, model, row, given, placed)? {
            free.push(copy_placed(alloc, placed)?)?;
        }
    }
    Ok(free)
}

// Whether the set's entity of a number, or a given one, has the key.
fn is_taken(
    alloc: Global,
    model: &EntityModel,
    row: u32,
    given: &[Placed],
    placed: &PlacedKey,
) -> Result<bool, Memory>
    requires { row ≤ 4 }
    ensures { IfOk result (λ taken. taken ≡ is_taken model.now row given.now placed.now) }
{
    Ok(is_numbered(alloc, model, row, placed)? || is_given(model, given, placed))
}

// Whether the set's entity of a number has the key.
fn is_numbered(
    alloc: Global,
    model: &EntityModel,
    row: u32,
    placed: &PlacedKey,
) -> Result<bool, Memory>
    requires { row ≤ 4 }
    ensures { IfOk result (λ taken. taken
        ≡ list_any (same_key placed.now.key) (map (numbered_key model.now row placed.now.set) (numbers_from 0 (number_count model.now)))) }
{
    for number in 0..number_count(model)? {
        if placed.key == numbered_key(alloc, model, row, placed.set, number)? {
            return Ok(true);
        }
    }
    Ok(false)
}

// Whether a given entity of the set has the key.
fn is_given(model: &EntityModel, given: &[Placed], placed: &PlacedKey) -> bool
    ensures { result ≡ list_any (same_key placed.now.key) (map (key_of model.now) (given_in given.now placed.now.set)) }
{
    given.iter().any(|one| is_given_at(model, one, placed))
}

// Whether a given entity stands in the set and has the key.
fn is_given_at(model: &EntityModel, one: &Placed, placed: &PlacedKey) -> bool
    ensures { result ≡ (one.now.set.index == placed.now.set.index) && same_key placed.now.key (key_of model.now one.now.entity) }
{
    one.set.index == placed.set.index && has_key(model, &one.entity, &placed.key)
}
