ghost use Rattle.std.specs.Prelude.{◌≡◌, ◌↔◌, ◌++◌, ◌⊎◌, [], Any, Contains, IfOk, IsTrue, List, slice_get, unwrap_or};
ghost use Rattle.std.specs.BTreeMap.{get};
ghost use Rattle.std.specs.BTreeSet.{contains};
ghost use Rattle.round_trip.specs.Words.{Value};
ghost use Rattle.entity_changes.specs.Spots.{key_spot, link_spot, spot_cmp};
ghost use Rattle.entity_changes.specs.making.Types.{AreTypes};
ghost use Rattle.entity_changes.specs.making.Standing.{AddsLink, AddsLinks, AddsTypes, Takes, TakesLink, TellsLinks, TellsStanding, TellsTypes};

use crate::change::{Change, Reason};
use crate::making::types::{Types, add_type, delete_types, insert_type, update_reason};
use crate::spots::{Spot, entity_spot, key_spot, link_spot};
use edm_types::{Entity, EntityModel, Link};
use emc_base::{AssocId, Memory, Seq, SetId, narrow};
use entity_state::EntityState;
use std::alloc::Global;
use std::collections::{BTreeMap, BTreeSet};

/// What stands in a state, as far as changes are refused by it.
#[derive(Drop)]
pub(crate) struct Standing {
    pub(crate) entities: BTreeMap<Spot, Types>,
    pub(crate) links: BTreeSet<Spot>,
}

impl Standing {
    /// What stands in this state. `Memory` comes where memory ran out.
    pub(super) fn of(
        alloc: Global,
        model: &EntityModel,
        state: &EntityState,
    ) -> Result<Standing, Memory>
        ensures { IfOk result (TellsStanding model.now state.now) }
    {
        let entities = types_in(alloc, model, state.entity_lists())?;
        let links = links_in(alloc, state.link_lists())?;
        Ok(Standing { entities, links })
    }

    /// Makes a change, or answers why it is refused. `Memory` comes where memory ran out.
    pub(super) fn take(
        &mut self,
        alloc: Global,
        model: &EntityModel,
        change: &Change,
    ) -> Result<Option<Reason>, Memory>
        ensures { IfOk result (Takes model.now change.now self.old self.new) }
    {
        match change {
            Change::Insert(set, entity) => {
                let spot = entity_spot(alloc, model, *set, entity)?;
                insert_type(&mut self.entities, spot, entity.ty)
            }
            Change::Update(set, entity) => {
                let spot = entity_spot(alloc, model, *set, entity)?;
                let held = self.entities.get(&spot).copied();
                Ok(update_reason(held, entity.ty))
            }
            Change::Delete(set, key) => {
                let spot = key_spot(alloc, *set, key)?;
                Ok(delete_types(&mut self.entities, &spot))
            }
            Change::Link(assoc, link) => {
                let spot = link_spot(alloc, *assoc, link)?;
                add_link(&mut self.links, spot)
            }
            Change::Unlink(assoc, link) => {
                let spot = link_spot(alloc, *assoc, link)?;
                Ok(take_link(&mut self.links, &spot))
            }
        }
    }
}

// A link comes, unless it is there.
fn add_link(links: &mut BTreeSet<Spot>, spot: Spot) -> Result<Option<Reason>, Memory>
    ensures { IfOk result (AddsLink spot links.old links.new) }
{
    if links.insert(spot)? {
        Ok(None)
    } else {
        Ok(Some(Reason::LinkExists))
    }
}

// A link goes, unless it isn't there.
fn take_link(links: &mut BTreeSet<Spot>, spot: &Spot) -> Option<Reason>
    ensures { TakesLink spot.now links.old links.new result }
{
    if links.remove(spot) {
        None
    } else {
        Some(Reason::LinkAbsent)
    }
}

// The types of the entities of each key.
fn types_in(
    alloc: Global,
    model: &EntityModel,
    lists: &[Seq<Entity>],
) -> Result<BTreeMap<Spot, Types>, Memory>
    ensures { IfOk result (TellsTypes model.now lists.now) }
{
    let mut types = BTreeMap::new(alloc);
    for (place, list) in lists.iter().enumerate() {
        let set = SetId {
            index: narrow(place)?,
        };
        add_types(alloc, model, &mut types, set, list.as_slice())?;
    }
    Ok(types)
}

// Adds those of the entities of a set.
fn add_types(
    alloc: Global,
    model: &EntityModel,
    types: &mut BTreeMap<Spot, Types>,
    set: SetId,
    entities: &[Entity],
) -> Result<(), Memory>
    ensures { IfOk result (λ _. AddsTypes model.now set entities.now types.old types.new) }
{
    for entity in entities {
        let spot = entity_spot(alloc, model, set, entity)?;
        add_type(types, spot, entity.ty)?;
    }
    Ok(())
}

// The links that there are.
fn links_in(alloc: Global, lists: &[Seq<Link>]) -> Result<BTreeSet<Spot>, Memory>
    ensures { IfOk result (TellsLinks lists.now) }
{
    let mut links = BTreeSet::new(alloc);
    for (place, list) in lists.iter().enumerate() {
        let assoc = AssocId {
            index: narrow(place)?,
        };
        add_links(alloc, &mut links, assoc, list.as_slice())?;
    }
    Ok(links)
}

// Adds those of an association set.
fn add_links(
    alloc: Global,
    links: &mut BTreeSet<Spot>,
    assoc: AssocId,
    list: &[Link],
) -> Result<(), Memory>
    ensures { IfOk result (λ _. AddsLinks assoc list.now links.old links.new) }
{
    for link in list {
        let spot = link_spot(alloc, assoc, link)?;
        links.insert(spot)?;
    }
    Ok(())
}
