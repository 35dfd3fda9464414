ghost use Rattle.std.specs.Prelude.{IfOk};
ghost use Rattle.groupings.specs.least_fault.Least.{IsLeast};
ghost use Rattle.round_trip.specs.Words.{Breach, EntityModel, IsBreachOf, IsLegal, IsState, State};
ghost use Rattle.round_trip.specs.soundness.models.Models.{IsSoundModel};
ghost use Rattle.entity_state.specs.breach_order.Founds.{found_cmp};
ghost use Rattle.state_legality.specs.Tells.{BreaksState, TellsState};

use crate::link_legality::first_in_links;
use crate::set_legality::first_in_sets;
use edm_types::{Breach, EntityModel};
use emc_base::Memory;
use entity_state::{EntityState, Found};
use groupings::earlier;
use std::alloc::Global;

/// The first breach of the rules of entity states, S1 to S8: the least rule that is broken, at its first place. `None` comes exactly where
/// the state is legal, and `Memory` where memory ran out.
pub fn first_breach(
    alloc: Global,
    state: &EntityState,
    model: &EntityModel,
) -> Result<Option<Breach>, Memory>
    requires shape { IsState model.now state.now }
    requires sound { IsSoundModel model.now }
    ensures { IfOk result (TellsState model.now state.now) }
{
    match first_found(alloc, state, model)? {
        Some(found) => Ok(Some(found.breach())),
        None => Ok(None),
    }
}

// The least of what breaks the rules.
fn first_found(
    alloc: Global,
    state: &EntityState,
    model: &EntityModel,
) -> Result<Option<Found>, Memory>
    requires { IsSoundModel model.now }
    ensures { IfOk result (IsLeast found_cmp (BreaksState model.now state.now)) }
{
    let entities = state.entity_lists();
    let in_sets = first_in_sets(alloc, model, entities)?;
    let in_links = first_in_links(alloc, model, entities, state.link_lists())?;
    Ok(earlier(in_sets, in_links))
}

/// The law that a legal state has no breach: so each answer of [`first_breach`] comes exactly where its word holds.
pub fn legal_states_have_no_breach()
    ensures { (model : EntityModel) (state : State) (breach : Breach) → IsLegal model state → ¬ IsBreachOf model state breach }
{}
