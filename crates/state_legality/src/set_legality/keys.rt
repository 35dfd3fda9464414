ghost use Rattle.std.specs.Prelude.{◌≡◌, ◌∷◌, [], IfOk, Some};
ghost use Rattle.groupings.specs.least_fault.Least.{IsLeast};
ghost use Rattle.round_trip.specs.Words.{place_at};
ghost use Rattle.entity_state.specs.breach_order.Founds.{found_cmp};
ghost use Rattle.state_legality.specs.set_legality.Found.{IsKeyBreach};

use edm_types::{Entity, EntityModel, EntitySet};
use emc_base::{Key, Memory, Place, Txt};
use entity_state::{Found, StateRule, first_repeated_key, keys_of};
use std::alloc::Global;

/// The first breach of S4 in a set: an entity that has the key of one before it.
pub fn first_repeated(
    alloc: Global,
    model: &EntityModel,
    s: usize,
    set: &EntitySet,
    entities: &[Entity],
) -> Result<Option<Found>, Memory>
    ensures { IfOk result (IsLeast found_cmp (IsKeyBreach model.now s set.now entities.now)) }
{
    let keys = keys_of(alloc, model, entities)?;
    let list = keys.as_slice();
    match first_repeated_key(alloc, list)? {
        Some(i) => found_at(alloc, s, set, i, &list[i]),
        None => Ok(None),
    }
}

// The entity at a place whose key is this, as what is found.
fn found_at(
    alloc: Global,
    s: usize,
    set: &EntitySet,
    i: usize,
    key: &Key,
) -> Result<Option<Found>, Memory>
    ensures { IfOk result (λ found. found ≡ Some (record { rule = 4; spot = s ∷ i ∷ []; place = place_at set.now.name key.now [] })) }
{
    let place = Place {
        name: set.name.copy(alloc)?,
        key: key.copy(alloc)?,
        part: Txt::of(alloc, "")?,
    };
    let found = Found::at(alloc, StateRule::Key.number(), &[s, i], place)?;
    Ok(Some(found))
}
