ghost use Rattle.std.specs.Prelude.{◌≡◌, ◌<◌, ◌++◌, IfOk, length, map, reverse};
ghost use Rattle.std.specs.List.{enumerate_from};
ghost use Rattle.round_trip.specs.Words.{key_of};
ghost use Rattle.entity_changes.specs.Applying.{AreGoodChanges};
ghost use Rattle.entity_changes.specs.Changes.{after};
ghost use Rattle.entity_changes.specs.Spots.{key_spot, link_spot};
ghost use Rattle.entity_changes.specs.making.Fates.{behind_at, entities_at, links_at, survivors};

use crate::change::Change;
use crate::copies::{copied_entity, copied_link};
use crate::making::fates::Fates;
use crate::making::foretold::Foretold;
use crate::spots::{entity_spot, link_spot};
use edm_types::{Entity, EntityModel, Link};
use emc_base::{AssocId, Memory, Seq, SetId, narrow};
use entity_state::EntityState;
use std::alloc::Global;

/// The state after these changes, whether one of them is refused or not. `Memory` comes where memory ran out.
pub(super) fn changed_state(
    alloc: Global,
    model: &EntityModel,
    changes: &[Change],
    state: &EntityState,
) -> Result<EntityState, Memory>
    requires { AreGoodChanges model.now state.now changes.now }
    ensures { IfOk result (λ new. new ≡ after model.now state.now changes.now) }
{
    let entities = state.entity_lists();
    let links = state.link_lists();
    let told = Foretold::of(alloc, model, changes, entities.len(), links.len())?;
    let new_entities = entity_lists(alloc, model, &told.entities, entities)?;
    let new_links = link_lists(alloc, &told.links, links)?;
    Ok(EntityState::of_lists(new_entities, new_links))
}

// What becomes of the entities of each set.
fn entity_lists<'t>(
    alloc: Global,
    model: &EntityModel,
    fates: &Fates<'t, Entity>,
    lists: &'t [Seq<Entity>],
) -> Result<Vec<Seq<Entity>>, Memory>
    requires { length lists.now ≡ length fates.now.behind.items }
    ensures { IfOk result (λ made. made.items ≡ map (entities_at model.now fates.now) (enumerate_from 0 lists.now)) }
{
    let mut made = Vec::new(alloc);
    for (place, list) in lists.iter().enumerate() {
        let set = SetId {
            index: narrow(place)?,
        };
        let mut items = Seq::empty(alloc);
        add_entities(alloc, model, &mut items, fates, set, list.as_slice())?;
        add_new_entities(alloc, &mut items, fates, place)?;
        made.push(items)?;
    }
    Ok(made)
}

// Adds what becomes of the entities of a set.
fn add_entities<'t>(
    alloc: Global,
    model: &EntityModel,
    items: &mut Seq<Entity>,
    fates: &Fates<'t, Entity>,
    set: SetId,
    entities: &'t [Entity],
) -> Result<(), Memory>
    ensures { IfOk result (λ _. items.new ≡ items.old ++ survivors fates.now (λ entity. key_spot set (key_of model.now entity)) entities.now) }
{
    for entity in entities {
        let spot = entity_spot(alloc, model, set, entity)?;
        if let Some(kept) = fates.survivor(&spot, entity) {
            items.push(copied_entity(alloc, kept)?)?;
        }
    }
    Ok(())
}

// Adds those that stand behind them.
fn add_new_entities<'t>(
    alloc: Global,
    items: &mut Seq<Entity>,
    fates: &Fates<'t, Entity>,
    place: usize,
) -> Result<(), Memory>
    requires { place < length fates.now.behind.items }
    ensures { IfOk result (λ _. items.new ≡ items.old ++ reverse (behind_at fates.now place)) }
{
    for entity in fates.behind(place).iter().rev() {
        items.push(copied_entity(alloc, *entity)?)?;
    }
    Ok(())
}

// What becomes of the links of each association set.
fn link_lists<'t>(
    alloc: Global,
    fates: &Fates<'t, Link>,
    lists: &'t [Seq<Link>],
) -> Result<Vec<Seq<Link>>, Memory>
    requires { length lists.now ≡ length fates.now.behind.items }
    ensures { IfOk result (λ made. made.items ≡ map (links_at fates.now) (enumerate_from 0 lists.now)) }
{
    let mut made = Vec::new(alloc);
    for (place, list) in lists.iter().enumerate() {
        let assoc = AssocId {
            index: narrow(place)?,
        };
        let mut items = Seq::empty(alloc);
        add_links(alloc, &mut items, fates, assoc, list.as_slice())?;
        add_new_links(alloc, &mut items, fates, place)?;
        made.push(items)?;
    }
    Ok(made)
}

// Adds what becomes of the links of an association set.
fn add_links<'t>(
    alloc: Global,
    items: &mut Seq<Link>,
    fates: &Fates<'t, Link>,
    assoc: AssocId,
    links: &'t [Link],
) -> Result<(), Memory>
    ensures { IfOk result (λ _. items.new ≡ items.old ++ survivors fates.now (link_spot assoc) links.now) }
{
    for link in links {
        let spot = link_spot(alloc, assoc, link)?;
        if let Some(kept) = fates.survivor(&spot, link) {
            items.push(copied_link(alloc, kept)?)?;
        }
    }
    Ok(())
}

// Adds those that stand behind them.
fn add_new_links<'t>(
    alloc: Global,
    items: &mut Seq<Link>,
    fates: &Fates<'t, Link>,
    place: usize,
) -> Result<(), Memory>
    requires { place < length fates.now.behind.items }
    ensures { IfOk result (λ _. items.new ≡ items.old ++ reverse (behind_at fates.now place)) }
{
    for link in fates.behind(place).iter().rev() {
        items.push(copied_link(alloc, *link)?)?;
    }
    Ok(())
}
