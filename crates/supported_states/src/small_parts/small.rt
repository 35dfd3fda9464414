ghost use Rattle.std.specs.Prelude.{◌≡◌, ◌≤◌, ◌∷◌, [], IfOk};
ghost use Rattle.population.specs.Kept.{needed_keys, part_of};
ghost use Rattle.population.specs.Made.{state_of};
ghost use Rattle.supported_states.specs.small_parts.Small.{AreSupported, Finds, IsFound, IsSupported, all_needs, states_of};
ghost use Rattle.supported_states.specs.Spots.{HoldsJust};

use crate::distinct::append;
use crate::small_parts::needs::needs_of;
use crate::small_parts::part::part_made;
use crate::spots::{Spot, copy_placed, spot_of};
use edm_types::EntityModel;
use emc_base::{Memory, Seq, beside};
use entity_state::EntityState;
use population::{PlacedKey, Supporting};
use std::alloc::Global;
use std::collections::BTreeSet;

/// The part of a supported state that holds what the entities of some keys need. No other entity is made. `Memory` comes where memory ran
/// out.
pub fn small_state(
    alloc: Global,
    model: &EntityModel,
    row: u32,
    one: &Supporting,
    roots: &Seq<PlacedKey>,
) -> Result<EntityState, Memory>
    requires { IsSupported model.now row one.now }
    ensures { IfOk result (λ state. state ≡ part_of model.now (state_of model.now row one.now ∷ []) roots.now (state_of model.now row one.now)) }
{
    let found = found_keys(alloc, model, row, &[one], roots.as_slice())?;
    part_made(alloc, model, row, one, &found)
}

/// The parts of two supported states that hold what the entities of some keys need in either. No other entity is made. `Memory` comes where
/// memory ran out.
pub fn small_states(
    alloc: Global,
    model: &EntityModel,
    row: u32,
    one: &Supporting,
    two: &Supporting,
    roots: &Seq<PlacedKey>,
) -> Result<(EntityState, EntityState), Memory>
    requires one { IsSupported model.now row one.now }
    requires two { IsSupported model.now row two.now }
    ensures one { IfOk result (λ pair. pair.0
        ≡ part_of model.now (state_of model.now row one.now ∷ (state_of model.now row two.now ∷ [])) roots.now (state_of model.now row one.now)) }
    ensures two { IfOk result (λ pair. pair.1
        ≡ part_of model.now (state_of model.now row one.now ∷ (state_of model.now row two.now ∷ [])) roots.now (state_of model.now row two.now)) }
{
    let found = found_keys(alloc, model, row, &[one, two], roots.as_slice())?;
    let first = part_made(alloc, model, row, one, &found)?;
    beside(first, part_made(alloc, model, row, two, &found))
}

// Keys that were found, each once, in the order in which they were found.
#[derive(Drop)]
pub(crate) struct Found {
    keys: Vec<PlacedKey>,
    spots: BTreeSet<Spot>,
}

// The keys that the entities of some keys need in any of these states, with theirs.
fn found_keys(
    alloc: Global,
    model: &EntityModel,
    row: u32,
    ones: &[&Supporting],
    roots: &[PlacedKey],
) -> Result<BTreeSet<Spot>, Memory>
    requires { AreSupported model.now row ones.now }
    ensures { IfOk result (HoldsJust (needed_keys model.now (states_of model.now row ones.now) roots.now)) }
{
    let mut found = Found {
        keys: Vec::new(alloc),
        spots: BTreeSet::new(alloc),
    };
    add_all(alloc, &mut found, roots)?;
    let mut at = 0;
    while at < found.keys.len() {
        let needs = all_needs(alloc, model, row, ones, &found.keys[at])?;
        add_all(alloc, &mut found, needs.as_slice())?;
        at += 1;
    }
    Ok(found.spots)
}

// Adds keys that weren't found yet.
fn add_all(alloc: Global, found: &mut Found, keys: &[PlacedKey]) -> Result<(), Memory>
    ensures { IsFound found.old → IfOk result (λ _. Finds keys.now found.old found.new) }
{
    for placed in keys {
        add(alloc, found, placed)?;
    }
    Ok(())
}

// Adds a key, unless it was found.
fn add(alloc: Global, found: &mut Found, placed: &PlacedKey) -> Result<(), Memory>
    ensures { IsFound found.old → IfOk result (λ _. Finds (placed.now ∷ []) found.old found.new) }
{
    if found.spots.insert(spot_of(alloc, placed)?)? {
        found.keys.push(copy_placed(alloc, placed)?)?;
    }
    Ok(())
}

// What the entity with a key needs in any of these states.
fn all_needs(
    alloc: Global,
    model: &EntityModel,
    row: u32,
    ones: &[&Supporting],
    placed: &PlacedKey,
) -> Result<Seq<PlacedKey>, Memory>
    requires { row ≤ 4 }
    ensures { IfOk result (λ needs. needs ≡ all_needs model.now row ones.now placed.now) }
{
    let mut needs = Seq::empty(alloc);
    for one in ones {
        let own = needs_of(alloc, model, row, one, placed)?;
        append(alloc, &mut needs, own.as_slice())?;
    }
    Ok(needs)
}
