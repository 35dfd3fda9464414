ghost use Rattle.std.specs.Prelude.{◌≡◌, [], IfOk};
ghost use Rattle.round_trip.specs.Words.{key_of};
ghost use Rattle.entity_changes.specs.Spots.{key_spot, link_spot};

use edm_types::{Entity, EntityModel, Link};
use emc_base::{AssocId, Key, Memory, Seq, SetId};
use entity_state::key_of;
use std::alloc::Global;

/// Where an entity or a link is looked up: an entity by the number of its set and its key, beside which stands an empty one; a link by the number of
/// its association set and the keys at its ends. A row stands at the number of its table and its key, as an entity does.
pub type Spot = (u32, Key, Key);

/// The spot of a key in a set. `Memory` comes where memory ran out.
pub(crate) fn key_spot(alloc: Global, set: SetId, key: &Key) -> Result<Spot, Memory>
    ensures { IfOk result (λ spot. spot ≡ key_spot set key.now) }
{
    let key = key.copy(alloc)?;
    Ok((set.index, key, Seq::empty(alloc)))
}

/// The spot of an entity. `Memory` comes where memory ran out.
pub(crate) fn entity_spot(
    alloc: Global,
    model: &EntityModel,
    set: SetId,
    entity: &Entity,
) -> Result<Spot, Memory>
    ensures { IfOk result (λ spot. spot ≡ key_spot set (key_of model.now entity.now)) }
{
    let key = key_of(alloc, model, entity)?;
    Ok((set.index, key, Seq::empty(alloc)))
}

/// The spot of a link. `Memory` comes where memory ran out.
pub(crate) fn link_spot(alloc: Global, assoc: AssocId, link: &Link) -> Result<Spot, Memory>
    ensures { IfOk result (λ spot. spot ≡ link_spot assoc link.now) }
{
    let first = link.first.copy(alloc)?;
    let second = link.second.copy(alloc)?;
    Ok((assoc.index, first, second))
}
