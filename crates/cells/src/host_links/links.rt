ghost use Rattle.std.specs.Prelude.{◌≡◌, All, IfOk, length};
ghost use Rattle.std.specs.BTreeMap.{IsEmpty};
ghost use Rattle.cells.specs.Parts.{CoverModel};
ghost use Rattle.cells.specs.host_links.Grouped.{GroupsLinks, links_in};

use crate::Cells;
use crate::host_links::adding::add_hosted;
use edm_types::{EntityModel, EntitySet, Hosted};
use emc_base::{AssocId, Key, KeyRef, Memory, Seq, SetId};
use entity_state::{EntityState, links_at};
use std::alloc::Global;
use std::collections::BTreeMap;

/// The links of an entity state, by the entities that host them, whose keys the state lends.
#[derive(Drop)]
pub struct HostLinks<'s> {
    // For each entity set, the links that the entity of a key hosts.
    by_set: Vec<BTreeMap<KeyRef<'s>, Seq<Hosted>>>,
    // No link, which is lent where an entity hosts none.
    none: Seq<Hosted>,
}

impl<'s> HostLinks<'s> {
    /// The links of a state, by where the cells tell that links stand. Each link is passed once. `Memory` comes where memory ran out.
    pub fn of(
        alloc: Global,
        model: &EntityModel,
        cells: &Cells,
        state: &'s EntityState,
    ) -> Result<HostLinks<'s>, Memory>
        requires { CoverModel model.now cells.now }
        ensures { IfOk result (GroupsLinks model.now cells.now state.now) }
    {
        let mut by_set = empty_maps(alloc, model.sets.as_slice())?;
        let lists = state.link_lists();
        for (index, assoc) in model.assocs.as_slice().iter().enumerate() {
            let id = AssocId {
                index: index as u32,
            };
            let place = cells.link_place(id);
            add_hosted(alloc, &mut by_set, place, id, assoc, links_at(lists, id))?;
        }
        Ok(HostLinks {
            by_set,
            none: Seq::empty(alloc),
        })
    }

    /// The links that the entity of this key in the set hosts, by association set, and then in the order of their list. It takes no memory.
    pub fn at(&self, set: SetId, key: &'s Key) -> &Seq<Hosted>
        ensures { result.now ≡ links_in self.now set key.now }
    {
        match self.by_set.get(set.index as usize) {
            Some(by_key) => by_key.get(&KeyRef::of(key)).unwrap_or(&self.none),
            None => &self.none,
        }
    }
}

// A map without an entry for each of these sets.
fn empty_maps<'s>(
    alloc: Global,
    sets: &[EntitySet],
) -> Result<Vec<BTreeMap<KeyRef<'s>, Seq<Hosted>>>, Memory>
    ensures size { IfOk result (λ maps. length maps.items ≡ length sets.now) }
    ensures empty { IfOk result (λ maps. All IsEmpty maps.items) }
{
    let mut maps = Vec::new(alloc);
    for _ in sets {
        maps.push(BTreeMap::new(alloc))?;
    }
    Ok(maps)
}
