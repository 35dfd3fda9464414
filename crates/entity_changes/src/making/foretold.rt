ghost use Rattle.std.specs.Prelude.{All, IfOk, length};
ghost use Rattle.entity_changes.specs.making.Fates.{Foretells, ForetellsOneMore, HasSize, IsFresh};
ghost use Rattle.entity_changes.specs.making.Places.{HasPlace};

use crate::change::Change;
use crate::making::fates::Fates;
use crate::spots::{entity_spot, key_spot, link_spot};
use edm_types::{Entity, EntityModel, Link};
use emc_base::Memory;
use std::alloc::Global;

/// What changes do to entities and links.
#[derive(Drop)]
pub(crate) struct Foretold<'t> {
    pub(crate) entities: Fates<'t, Entity>,
    pub(crate) links: Fates<'t, Link>,
}

impl<'t> Foretold<'t> {
    /// What these changes do, in a state of so many entity sets and association sets. `Memory` comes where memory ran out.
    pub(super) fn of(
        alloc: Global,
        model: &EntityModel,
        changes: &'t [Change],
        sets: usize,
        assocs: usize,
    ) -> Result<Foretold<'t>, Memory>
        requires { All (HasPlace sets assocs) changes.now }
        ensures size { IfOk result (HasSize sets assocs) }
        ensures told { IfOk result (Foretells model.now changes.now) }
    {
        let mut told = Foretold::none(alloc, sets, assocs)?;
        for change in changes.iter().rev() {
            told.take(alloc, model, change)?;
        }
        Ok(told)
    }

    // What no change does.
    fn none(alloc: Global, sets: usize, assocs: usize) -> Result<Foretold<'t>, Memory>
        ensures { IfOk result (λ told. IsFresh sets told.entities × IsFresh assocs told.links) }
    {
        let entities = Fates::none(alloc, sets)?;
        let links = Fates::none(alloc, assocs)?;
        Ok(Foretold { entities, links })
    }

    // One change before the others.
    fn take(&mut self, alloc: Global, model: &EntityModel, change: &'t Change) -> Result<(), Memory>
        requires { HasPlace (length self.old.entities.behind.items) (length self.old.links.behind.items) change.now }
        ensures { IfOk result (λ _. ForetellsOneMore model.now change.now self.old self.new) }
    {
        match change {
            Change::Insert(set, entity) => {
                let spot = entity_spot(alloc, model, *set, entity)?;
                self.entities.add(set.index as usize, &spot, entity)
            }
            Change::Update(set, entity) => {
                let spot = entity_spot(alloc, model, *set, entity)?;
                self.entities.replace(spot, entity)
            }
            Change::Delete(set, key) => {
                let spot = key_spot(alloc, *set, key)?;
                self.entities.remove(spot)
            }
            Change::Link(assoc, link) => {
                let spot = link_spot(alloc, *assoc, link)?;
                self.links.add(assoc.index as usize, &spot, link)
            }
            Change::Unlink(assoc, link) => {
                let spot = link_spot(alloc, *assoc, link)?;
                self.links.remove(spot)
            }
        }
    }
}
