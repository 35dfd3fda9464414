ghost use Rattle.std.specs.Prelude.{◌≡◌, ◌<◌, [], IfOk, OnErr, OnOk, length, map};
ghost use Rattle.std.specs.Option.{option_copied};
ghost use Rattle.round_trip.specs.Words.{entities_in, links_in};
ghost use Rattle.entity_state.specs.Lists.{HasKey, IsFirstOf, empty_state, with_entity, with_link};

use crate::keys::has_key;
use edm_types::{Entity, EntityModel, Link};
use emc_base::{AssocId, Key, Memory, Seq, SetId};
use std::alloc::Global;
use std::marker::Model;

/// An entity state, which contracts see as its entities for each entity set and its links for each association set.
#[derive(Drop)]
pub struct EntityState {
    entities: Vec<Seq<Entity>>,
    links: Vec<Seq<Link>>,
}

impl Model for EntityState {
    ghost use Rattle.round_trip.specs.Words.{State};
    ghost use Rattle.std.specs.Coded.{codes};

    ghost Value = { State };

    ghost view = { λ s. record { entities = s.entities.items; links = s.links.items } };
}

impl EntityState {
    /// The state of a model without an entity and without a link. `Memory` comes where memory ran out.
    pub fn empty(alloc: Global, model: &EntityModel) -> Result<EntityState, Memory>
        ensures { IfOk result (λ state. state ≡ empty_state model.now) }
    {
        let entities = empty_lists(alloc, model.sets.as_slice())?;
        let links = empty_lists(alloc, model.assocs.as_slice())?;
        Ok(EntityState { entities, links })
    }

    /// The state of these lists: the entities of each entity set, and the links of each association set, in the order of the model.
    pub fn of_lists(entities: Vec<Seq<Entity>>, links: Vec<Seq<Link>>) -> EntityState
        ensures { result ≡ record { entities = entities.items; links = links.items } }
    {
        EntityState { entities, links }
    }

    /// Adds an entity behind those of its set. `Memory` comes where memory ran out, and then nothing has changed.
    pub fn insert(&mut self, set: SetId, entity: Entity) -> Result<(), Memory>
        requires { set.index < length self.old.entities }
        ensures ok { OnOk result (self.new ≡ with_entity self.old set entity) }
        ensures err { OnErr result (self.new ≡ self.old) }
    {
        self.entities[set.index as usize].push(entity)
    }

    /// Adds a link behind those of its association set. `Memory` comes where memory ran out, and then nothing has changed.
    pub fn insert_link(&mut self, assoc: AssocId, link: Link) -> Result<(), Memory>
        requires { assoc.index < length self.old.links }
        ensures ok { OnOk result (self.new ≡ with_link self.old assoc link) }
        ensures err { OnErr result (self.new ≡ self.old) }
    {
        self.links[assoc.index as usize].push(link)
    }

    /// The entities of each entity set, in the order of the model.
    pub fn entity_lists(&self) -> &[Seq<Entity>]
        ensures { result.now ≡ self.now.entities }
    {
        self.entities.as_slice()
    }

    /// The links of each association set, in the order of the model.
    pub fn link_lists(&self) -> &[Seq<Link>]
        ensures { result.now ≡ self.now.links }
    {
        self.links.as_slice()
    }

    /// The entities of a set, in the order of the list.
    pub fn entities(&self, set: SetId) -> &Seq<Entity>
        requires { set.index < length self.now.entities }
        ensures { result.now ≡ entities_in self.now set }
    {
        &self.entities[set.index as usize]
    }

    /// The links of an association set, in the order of the list.
    pub fn links(&self, assoc: AssocId) -> &Seq<Link>
        requires { assoc.index < length self.now.links }
        ensures { result.now ≡ links_in self.now assoc }
    {
        &self.links[assoc.index as usize]
    }

    /// The first entity of a set that has this key; `None` exactly where none has it. It takes no memory.
    pub fn find(&self, model: &EntityModel, set: SetId, key: &Key) -> Option<&Entity>
        requires { set.index < length self.now.entities }
        ensures { IsFirstOf (HasKey model.now key.now) (entities_in self.now set) (option_copied result) }
    {
        let entities = self.entities(set).as_slice();
        for entity in entities {
            if has_key(model, entity, key) {
                return Some(entity);
            }
        }
        None
    }
}

// An empty list for each of some items.
fn empty_lists<T, D>(alloc: Global, declared: &[D]) -> Result<Vec<Seq<T>>, Memory>
where
    T: Drop,
    ensures { IfOk result (λ lists. lists.items ≡ map (λ _. []) declared.now) }
{
    let mut lists = Vec::new(alloc);
    for _ in declared {
        lists.push(Seq::empty(alloc))?;
    }
    Ok(lists)
}
