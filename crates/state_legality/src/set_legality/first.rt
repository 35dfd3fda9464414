ghost use Rattle.std.specs.Prelude.{◌↔◌, IfOk};
ghost use Rattle.groupings.specs.least_fault.Least.{Among, IsLeast};
ghost use Rattle.round_trip.specs.Words.{EntityModel, State};
ghost use Rattle.round_trip.specs.soundness.models.Models.{IsSoundModel};
ghost use Rattle.entity_state.specs.breach_order.Founds.{found_cmp};
ghost use Rattle.entity_state.specs.declared.breach_order.found.Found.{Found};
ghost use Rattle.state_legality.specs.set_legality.Found.{IsSetBreach};
ghost use Rattle.state_legality.specs.set_legality.Tells.{AreLegalSets, BreaksSets, IsFirstInSets, entities_numbered};

use crate::set_legality::entities::SetEntities;
use crate::set_legality::keys::first_repeated;
use crate::set_legality::types::under_types;
use edm_types::{Entity, EntityModel, EntitySet};
use emc_base::{Memory, Seq};
use entity_state::{Found, list_at};
use groupings::{earlier, first_among};
use std::alloc::Global;

/// The first breach of S1 to S4, whatever the links are: the least rule of these that is broken, at its first place. `Memory` comes where
/// memory ran out.
pub fn first_in_sets(
    alloc: Global,
    model: &EntityModel,
    entities: &[Seq<Entity>],
) -> Result<Option<Found>, Memory>
    requires { IsSoundModel model.now }
    ensures { IfOk result (IsFirstInSets model.now entities.now) }
{
    first_in_lists(alloc, model, model.sets.as_slice(), entities)
}

// The least of what breaks S1 to S4, set by set.
fn first_in_lists(
    alloc: Global,
    model: &EntityModel,
    sets: &[EntitySet],
    entities: &[Seq<Entity>],
) -> Result<Option<Found>, Memory>
    requires { IsSoundModel model.now }
    ensures { IfOk result (IsLeast found_cmp (Among (λ s set. IsSetBreach model.now s set (entities_numbered entities.now s)) sets.now)) }
{
    let mut found = None;
    for (s, set) in sets.iter().enumerate() {
        let in_set = first_in_set(alloc, model, s, set, list_at(entities, s))?;
        found = earlier(found, in_set);
    }
    Ok(found)
}

// The least of what breaks S1 to S4 in one set.
fn first_in_set(
    alloc: Global,
    model: &EntityModel,
    s: usize,
    set: &EntitySet,
    entities: &[Entity],
) -> Result<Option<Found>, Memory>
    requires { IsSoundModel model.now }
    ensures { IfOk result (IsLeast found_cmp (IsSetBreach model.now s set.now entities.now)) }
{
    let under = under_types(alloc, model, set.element)?;
    let marks = under.as_slice();
    let search = SetEntities {
        model,
        s,
        set,
        marks,
    };
    let at_entities = first_among(alloc, &search, entities)?;
    let at_keys = first_repeated(alloc, model, s, set, entities)?;
    Ok(earlier(at_entities, at_keys))
}

/// The law that sets are legal just where nothing is found in them.
pub fn legal_sets_break_no_rule()
    ensures { (model : EntityModel) (state : State) → IsSoundModel model → AreLegalSets model state.entities ↔ ((found : Found) → ¬ BreaksSets model state found) }
{}
