ghost use Rattle.std.specs.Prelude.{◌≡◌, ◌++◌, [], IfOk, flat_map, map};
ghost use Rattle.population.specs.Kept.{key_in};
ghost use Rattle.population.specs.Principals.{principals};

use edm_types::EntityModel;
use emc_base::{Memory, Seq};
use entity_state::key_of;
use population::{Placed, PlacedKey};
use std::alloc::Global;
use supported_states::principals;

/// The keys of given entities, and those of the principals that they ask for.
#[derive(Drop)]
pub struct Asked {
    /// The keys of the given entities, in their order.
    pub roots: Seq<PlacedKey>,
    /// The keys of the principals that they ask for, entity by entity.
    pub wanted: Seq<PlacedKey>,
}

impl Asked {
    /// The keys of no entities.
    pub fn nothing(alloc: Global) -> Asked
        ensures roots { result.roots ≡ [] }
        ensures wanted { result.wanted ≡ [] }
    {
        Asked {
            roots: Seq::empty(alloc),
            wanted: Seq::empty(alloc),
        }
    }
}

/// Adds the keys of given entities, and those of the principals that they ask for. `Memory` comes where memory ran out.
pub fn ask(
    alloc: Global,
    model: &EntityModel,
    given: &[Placed],
    asked: &mut Asked,
) -> Result<(), Memory>
    ensures roots { IfOk result (λ _. asked.new.roots ≡ asked.old.roots ++ map (λ placed. key_in model.now placed.set placed.entity) given.now) }
    ensures wanted { IfOk result (λ _. asked.new.wanted ≡ asked.old.wanted ++ flat_map (λ placed. principals model.now placed.set placed.entity) given.now) }
{
    add_keys(alloc, model, given, &mut asked.roots)?;
    add_principals(alloc, model, given, &mut asked.wanted)
}

/// Adds the keys of given entities. `Memory` comes where memory ran out.
pub fn add_keys(
    alloc: Global,
    model: &EntityModel,
    given: &[Placed],
    keys: &mut Seq<PlacedKey>,
) -> Result<(), Memory>
    ensures { IfOk result (λ _. keys.new ≡ keys.old ++ map (λ placed. key_in model.now placed.set placed.entity) given.now) }
{
    for placed in given {
        let key = key_of(alloc, model, &placed.entity)?;
        keys.push(PlacedKey {
            set: placed.set,
            key,
        })?;
    }
    Ok(())
}

/// Adds the keys of the principals that given entities ask for. `Memory` comes where memory ran out.
pub fn add_principals(
    alloc: Global,
    model: &EntityModel,
    given: &[Placed],
    keys: &mut Seq<PlacedKey>,
) -> Result<(), Memory>
    ensures { IfOk result (λ _. keys.new ≡ keys.old ++ flat_map (λ placed. principals model.now placed.set placed.entity) given.now) }
{
    for placed in given {
        append(keys, principals(alloc, model, placed.set, &placed.entity)?)?;
    }
    Ok(())
}

// Adds these keys.
fn append(keys: &mut Seq<PlacedKey>, more: Seq<PlacedKey>) -> Result<(), Memory>
    ensures { IfOk result (λ _. keys.new ≡ keys.old ++ more) }
{
    for placed in more.into_vec() {
        keys.push(placed)?;
    }
    Ok(())
}
