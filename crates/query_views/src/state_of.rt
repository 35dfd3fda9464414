ghost use Rattle.std.specs.Prelude.{◌≡◌, IfOk, map};
ghost use Rattle.cells.specs.Cells.{is_free_in};
ghost use Rattle.cells.specs.Parts.{AreParts, schema_in};
ghost use Rattle.region_states.specs.region_basis.BasisOf.{basis_of};
ghost use Rattle.round_trip.specs.Words.{AreLegalTables, RoundTrips};
ghost use Rattle.query_views.specs.Answers.{StateOf};
ghost use Rattle.query_views.specs.Lent.{lent_entity, lent_state, link_of, shown_links, shown_values};
ghost use Rattle.query_views.specs.Views.{AreQueryViewsOf};

use crate::fault::StateFault;
use crate::lending::{LentEntity, copied_key};
use crate::links::{LentLinks, first_key, second_key};
use crate::loaded::Loaded;
use crate::views::QueryViews;
use cells::Parts;
use edm_types::{Entity, Link};
use emc_base::{Memory, Seq, Value};
use entity_state::EntityState;
use std::alloc::Global;
use table_files::Tables;

impl QueryViews {
    /// The state of all entities and links that legal tables tell: the entities of each set in the order of their keys, the links of each association set in the
    /// order of the key at the first end and then of that at the second. `NoCase` comes exactly where the rows at some key meet no case, with the first, by set
    /// and key; and `Memory` where memory ran out. Each value is copied once.
    pub fn state_of(
        &self,
        alloc: Global,
        parts: &Parts<'_>,
        tables: &Tables,
    ) -> Result<EntityState, StateFault>
        requires parts { AreParts parts.now }
        requires views { AreQueryViewsOf (basis_of parts.now) (is_free_in parts.now.cells.now) self.now }
        requires round_trips { RoundTrips (schema_in parts.now) }
        requires legal { AreLegalTables parts.now.store.now tables.now }
        ensures { StateOf (basis_of parts.now) (is_free_in parts.now.cells.now) tables.now result }
    {
        let loaded = Loaded::of(alloc, self, parts, tables)?;
        let state = loaded.copied(alloc)?;
        Ok(state)
    }
}

impl<'t> Loaded<'t> {
    // The state of copies of the entities.
    fn copied(&self, alloc: Global) -> Result<EntityState, Memory>
        ensures { IfOk result (λ state. state ≡ lent_state self.now) }
    {
        let mut lists = Vec::new(alloc);
        for of_set in self.sets.as_slice() {
            lists.push(copied_set(alloc, of_set.as_slice())?)?;
        }
        Ok(EntityState::of_lists(lists, copied_links(alloc, self.links.as_slice())?))
    }
}

// Copies of the entities of a set.
fn copied_set(alloc: Global, lent: &[LentEntity<'_>]) -> Result<Seq<Entity>, Memory>
    ensures { IfOk result (λ entities. entities ≡ map lent_entity lent.now) }
{
    let mut entities = Seq::empty(alloc);
    for one in lent {
        entities.push(
            one.met
                .reading
                .entity(alloc, one.met.case, one.rows.as_slice())?,
        )?;
    }
    Ok(entities)
}

// Copies of the links of each association set.
fn copied_links(alloc: Global, lent: &[LentLinks<'_>]) -> Result<Vec<Seq<Link>>, Memory>
    ensures { IfOk result (λ lists. lists.items ≡ map shown_links lent.now) }
{
    let mut lists = Vec::new(alloc);
    for of_assoc in lent {
        lists.push(copied_assoc(alloc, of_assoc)?)?;
    }
    Ok(lists)
}

// Copies of those of one.
fn copied_assoc(alloc: Global, lent: &LentLinks<'_>) -> Result<Seq<Link>, Memory>
    ensures { IfOk result (λ links. links ≡ shown_links lent.now) }
{
    let mut links = Seq::empty(alloc);
    for both in lent.keys.as_slice() {
        links.push(copied_link(alloc, both.key.as_slice(), lent.first_len)?)?;
    }
    Ok(links)
}

// A link of copies of both keys.
fn copied_link(alloc: Global, both: &[&Value], first_len: usize) -> Result<Link, Memory>
    ensures { IfOk result (λ link. link ≡ link_of first_len (shown_values both.now)) }
{
    Ok(Link {
        first: copied_key(alloc, first_key(both, first_len))?,
        second: copied_key(alloc, second_key(both, first_len))?,
    })
}
