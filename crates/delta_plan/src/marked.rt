ghost use Rattle.std.specs.Prelude.{◌≡◌, ◌++◌, All, IfOk, filter, map};
ghost use Rattle.round_trip.specs.Words.{EntityModel};
ghost use Rattle.delta_plan.specs.Marked.{HasOwnKey, entities_of, is_marked, links_of, unit_of, unit_of_link};
ghost use Rattle.delta_plan.specs.Units.{entity_units, link_units, of_entity, of_link};

use crate::marks::Marks;
use edm_types::{Entity, EntityModel, Link};
use emc_base::{AssocId, Key, Memory, Seq, SetId};
use entity_state::{EntityState, key_of};
use std::alloc::Global;

/// An entity at a touched key.
#[derive(Drop)]
pub(crate) struct MarkedEntity<'s> {
    pub(crate) set: SetId,
    pub(crate) key: Key,
    pub(crate) entity: &'s Entity,
}

/// A touched link.
#[derive(Clone, Copy)]
pub(crate) struct MarkedLink<'s> {
    pub(crate) assoc: AssocId,
    pub(crate) link: &'s Link,
}

/// The entities of a state at touched keys, in one pass over its entities.
pub(crate) fn marked_entities<'s>(
    alloc: Global,
    model: &EntityModel,
    marks: &Marks,
    state: &'s EntityState,
) -> Result<Vec<MarkedEntity<'s>>, Memory>
    ensures units { IfOk result (λ found. map unit_of found.items ≡ filter (is_marked model.now marks.now) (entity_units state.now)) }
    ensures keys { IfOk result (λ found. All (HasOwnKey model.now) found.items) }
{
    let mut found = Vec::new(alloc);
    for (index, entities) in state.entity_lists().iter().enumerate() {
        let Ok(number) = u32::try_from(index) else {
            return Err(Memory);
        };
        let set = SetId { index: number };
        add_set(alloc, model, marks, set, entities.as_slice(), &mut found)?;
    }
    Ok(found)
}

// Adds those of a set.
fn add_set<'s>(
    alloc: Global,
    model: &EntityModel,
    marks: &Marks,
    set: SetId,
    entities: &'s [Entity],
    found: &mut Vec<MarkedEntity<'s>>,
) -> Result<(), Memory>
    ensures units { IfOk result (λ _. map unit_of found.new.items ≡ map unit_of found.old.items ++ filter (is_marked model.now marks.now) (map (of_entity set) entities.now)) }
    ensures keys { All (HasOwnKey model.now) found.old.items → IfOk result (λ _. All (HasOwnKey model.now) found.new.items) }
{
    for entity in entities {
        add_entity(alloc, model, marks, set, entity, found)?;
    }
    Ok(())
}

// Adds an entity, if its key is touched.
fn add_entity<'s>(
    alloc: Global,
    model: &EntityModel,
    marks: &Marks,
    set: SetId,
    entity: &'s Entity,
    found: &mut Vec<MarkedEntity<'s>>,
) -> Result<(), Memory>
    ensures units { IfOk result (λ _. map unit_of found.new.items ≡ map unit_of found.old.items ++ entities_of model.now marks.now set entity.now) }
    ensures keys { All (HasOwnKey model.now) found.old.items → IfOk result (λ _. All (HasOwnKey model.now) found.new.items) }
{
    let key = key_of(alloc, model, entity)?;
    if marks.holds_key(alloc, set, &key)? {
        found.push(MarkedEntity { set, key, entity })?;
    }
    Ok(())
}

/// The touched links of a state, in one pass over its links.
pub(crate) fn marked_links<'s>(
    alloc: Global,
    marks: &Marks,
    state: &'s EntityState,
) -> Result<Vec<MarkedLink<'s>>, Memory>
    ensures { (model : EntityModel) → IfOk result (λ found. map unit_of_link found.items ≡ filter (is_marked model marks.now) (link_units state.now)) }
{
    let mut found = Vec::new(alloc);
    for (index, links) in state.link_lists().iter().enumerate() {
        let Ok(number) = u32::try_from(index) else {
            return Err(Memory);
        };
        let assoc = AssocId { index: number };
        add_assoc(alloc, marks, assoc, links.as_slice(), &mut found)?;
    }
    Ok(found)
}

// Adds those of an association set.
fn add_assoc<'s>(
    alloc: Global,
    marks: &Marks,
    assoc: AssocId,
    links: &'s [Link],
    found: &mut Vec<MarkedLink<'s>>,
) -> Result<(), Memory>
    ensures { (model : EntityModel) → IfOk result (λ _. map unit_of_link found.new.items
        ≡ map unit_of_link found.old.items ++ filter (is_marked model marks.now) (map (of_link assoc) links.now)) }
{
    for link in links {
        add_link(alloc, marks, assoc, link, found)?;
    }
    Ok(())
}

// Adds a link, if it is touched.
fn add_link<'s>(
    alloc: Global,
    marks: &Marks,
    assoc: AssocId,
    link: &'s Link,
    found: &mut Vec<MarkedLink<'s>>,
) -> Result<(), Memory>
    ensures { (model : EntityModel) → IfOk result (λ _. map unit_of_link found.new.items ≡ map unit_of_link found.old.items ++ links_of model marks.now assoc link.now) }
{
    if marks.holds_link(alloc, assoc, link)? {
        found.push(MarkedLink { assoc, link })?;
    }
    Ok(())
}
