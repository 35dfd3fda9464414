ghost use Rattle.std.specs.Prelude.{◌≡◌, ◌<◌, [], IfOk, length};
ghost use Rattle.cells.specs.HostedLinks.{host_key, host_set};
ghost use Rattle.cells.specs.Parts.{CoverModel};
ghost use Rattle.entity_changes.specs.Changes.{IsChange};
ghost use Rattle.entity_changes.specs.Spots.{key_spot, link_spot};
ghost use Rattle.entity_changes.specs.touched.Seen.{AddsOnce, AreGathered, GathersLink, GathersMore};

use crate::change::Change;
use crate::copies::copied_link;
use crate::spots::{key_spot, link_spot};
use crate::touched::seen::Seen;
use cells::Cells;
use edm_types::{Assoc, EntityModel, Link};
use emc_base::{AssocId, Key, Memory, SetId};
use entity_state::key_of;
use std::alloc::Global;
use table_owners::LinkPlace;

/// What changes touch, as far as they were passed.
#[derive(Drop)]
pub(crate) struct Gathered {
    pub(crate) entities: Seen<(SetId, Key)>,
    pub(crate) links: Seen<(AssocId, Link)>,
}

impl Gathered {
    /// Nothing.
    pub(super) fn none(alloc: Global) -> Gathered
        ensures seen { AreGathered result }
        ensures entities { result.entities.items ≡ [] }
        ensures links { result.links.items ≡ [] }
    {
        Gathered {
            entities: Seen::none(alloc),
            links: Seen::none(alloc),
        }
    }

    /// Adds what a change touches. `Memory` comes where memory ran out.
    pub(super) fn add(
        &mut self,
        alloc: Global,
        model: &EntityModel,
        cells: &Cells,
        change: &Change,
    ) -> Result<(), Memory>
        requires cover { CoverModel model.now cells.now }
        requires change { IsChange model.now change.now }
        ensures { AreGathered self.old → IfOk result (λ _. GathersMore model.now cells.now change.now self.old self.new) }
    {
        match change {
            Change::Insert(set, entity) => {
                let key = key_of(alloc, model, entity)?;
                self.add_entity(alloc, *set, key)
            }
            Change::Update(set, entity) => {
                let key = key_of(alloc, model, entity)?;
                self.add_entity(alloc, *set, key)
            }
            Change::Delete(set, key) => {
                let key = key.copy(alloc)?;
                self.add_entity(alloc, *set, key)
            }
            Change::Link(assoc, link) => self.add_changed(alloc, model, cells, *assoc, link),
            Change::Unlink(assoc, link) => self.add_changed(alloc, model, cells, *assoc, link),
        }
    }

    // Adds what a change of a link touches.
    fn add_changed(
        &mut self,
        alloc: Global,
        model: &EntityModel,
        cells: &Cells,
        assoc: AssocId,
        link: &Link,
    ) -> Result<(), Memory>
        requires cover { CoverModel model.now cells.now }
        requires assoc { assoc.index < length model.now.assocs }
        ensures { AreGathered self.old → IfOk result (λ _. GathersLink model.now cells.now assoc link.now self.old self.new) }
    {
        match cells.link_place(assoc) {
            LinkPlace::Hosted { first_hosts, .. } => {
                let declared = model.assocs.at(assoc.index as usize);
                let key = host_key(first_hosts, link).copy(alloc)?;
                self.add_entity(alloc, host_set(first_hosts, declared), key)
            }
            LinkPlace::Joined(_) => self.add_link(alloc, assoc, link),
            LinkPlace::Unmapped => Ok(()),
            LinkPlace::Constraint => Ok(()),
        }
    }

    // Adds the entity of a key.
    fn add_entity(&mut self, alloc: Global, set: SetId, key: Key) -> Result<(), Memory>
        ensures entities { IfOk result (λ _. AddsOnce (key_spot set key) (set, key) self.old.entities self.new.entities) }
        ensures links { self.new.links ≡ self.old.links }
    {
        let spot = key_spot(alloc, set, &key)?;
        self.entities.add(spot, (set, key))
    }

    // Adds a link.
    fn add_link(&mut self, alloc: Global, assoc: AssocId, link: &Link) -> Result<(), Memory>
        ensures links { IfOk result (λ _. AddsOnce (link_spot assoc link.now) (assoc, link.now) self.old.links self.new.links) }
        ensures entities { self.new.entities ≡ self.old.entities }
    {
        let spot = link_spot(alloc, assoc, link)?;
        let copy = copied_link(alloc, link)?;
        self.links.add(spot, (assoc, copy))
    }
}

// The set of the end that hosts.
fn host_set(first_hosts: bool, assoc: &Assoc) -> SetId
    ensures { result ≡ host_set first_hosts assoc.now }
{
    if first_hosts {
        assoc.first.set
    } else {
        assoc.second.set
    }
}

// The key of the entity that hosts a link.
fn host_key(first_hosts: bool, link: &Link) -> &Key
    ensures { result.now ≡ host_key first_hosts link.now }
{
    if first_hosts {
        &link.first
    } else {
        &link.second
    }
}
