ghost use Rattle.round_trip.specs.soundness.models.Models.{IsSoundModel};
ghost use Rattle.entity_changes.specs.Applying.{AreGoodChanges};
ghost use Rattle.mapping_core.specs.states.SaveParts.{ChangesTo};

use crate::saving::fault::SaveFault;
use edm_types::EntityModel;
use emc_base::Seq;
use entity_changes::{Change, apply};
use entity_state::EntityState;
use state_legality::first_breach;
use std::alloc::Global;

/// The state after the changes, which is legal. `Refused` comes where one is refused, `Breach` where the state isn't legal.
pub(crate) fn changed_state(
    alloc: Global,
    model: &EntityModel,
    changes: &Seq<Change>,
    state: &EntityState,
) -> Result<EntityState, SaveFault>
    requires sound { IsSoundModel model.now }
    requires changes { AreGoodChanges model.now state.now changes.now }
    ensures { ChangesTo model.now changes.now state.now result }
{
    let after = apply(alloc, model, changes, state)?;
    match first_breach(alloc, &after, model)? {
        Some(breach) => Err(SaveFault::Breach(breach)),
        None => Ok(after),
    }
}
