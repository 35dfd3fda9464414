ghost use Rattle.std.specs.Prelude.{◌≡◌, ◌<◌, [], All, IfOk, List, flat_map, length, map};
ghost use Rattle.std.specs.List.{enumerate_from};
ghost use Rattle.emc_base.specs.declared.ids.SetId.{SetId};
ghost use Rattle.round_trip.specs.Words.{Hosted, IsLegal, TablesAre, Value, key_of};
ghost use Rattle.round_trip.specs.TablesAre.{HasNoClash};
ghost use Rattle.cells.specs.Parts.{AreParts, schema_in};
ghost use Rattle.cells.specs.host_links.Grouped.{links_in};
ghost use Rattle.region_states.specs.region_basis.BasisOf.{basis_of};
ghost use Rattle.regions.specs.region_laws.Partners.{HasFewPartners};
ghost use Rattle.case_laws.specs.filled_rows.Gathered.{rows_of_links, rows_of_set};
ghost use Rattle.update_views.specs.Placed.{keys_in_sets, with_rows};
ghost use Rattle.update_views.specs.Views.{AreViewsOf, joined_row, local_rows};
ghost use Rattle.update_views.specs.view_rows.Held.{row_by_link};

use crate::view_rows::LinkRow;
use crate::views::UpdateViews;
use cells::{HostLinks, Parts};
use edm_types::{Entity, EntityModel, Link};
use emc_base::{AssocId, Key, Memory, Seq, SetId};
use entity_state::{EntityState, keys_of};
use std::alloc::Global;
use table_files::{TableRow, Tables};

impl UpdateViews {
    /// The tables of a legal state in which no two demanded values clash: one pass over its entities and its links. The associations that are hosted may let
    /// an entity have few partners alone. `Memory` comes where memory ran out.
    pub fn tables_of(
        &self,
        alloc: Global,
        parts: &Parts<'_>,
        state: &EntityState,
    ) -> Result<Tables, Memory>
        requires parts { AreParts parts.now }
        requires views { AreViewsOf (basis_of parts.now) self.now }
        requires few { (s : SetId) → HasFewPartners (basis_of parts.now) s }
        requires legal { IsLegal parts.now.model.now state.now }
        requires clear { HasNoClash (schema_in parts.now) state.now }
        ensures tables { IfOk result (TablesAre (schema_in parts.now) state.now) }
    {
        let keys = keys_in_sets(alloc, parts.model, state.entity_lists())?;
        let hosts = HostLinks::of(alloc, parts.model, parts.cells, state)?;
        self.tables_by(alloc, parts, &hosts, keys.as_slice(), state)
    }

    // The rows of all entities and of all links, in their tables.
    fn tables_by<'s>(
        &self,
        alloc: Global,
        parts: &Parts<'_>,
        hosts: &HostLinks<'s>,
        keys: &'s [Seq<Key>],
        state: &EntityState,
    ) -> Result<Tables, Memory>
        requires parts { AreParts parts.now }
        requires views { AreViewsOf (basis_of parts.now) self.now }
        requires keys { keys.now ≡ keys_in_sets parts.now.model.now state.now.entities }
        ensures { IfOk result (λ tables. tables ≡ with_rows
            (with_rows (map (λ _. []) parts.now.store.now.tables)
            (flat_map (rows_of_set parts.now.model.now (local_rows self.now) (joined_row self.now) (links_in hosts.now)) (enumerate_from 0 state.now.entities)))
            (flat_map (rows_of_links parts.now.model.now (local_rows self.now) (joined_row self.now) (links_in hosts.now)) (enumerate_from 0 state.now.links))) }
    {
        let mut tables = Tables::empty(alloc, parts.store)?;
        self.add_sets(alloc, parts, hosts, keys, state.entity_lists(), &mut tables)?;
        self.add_links(alloc, parts, state.link_lists(), &mut tables)?;
        Ok(tables)
    }

    // Adds the rows of the entities of each set.
    fn add_sets<'s>(
        &self,
        alloc: Global,
        parts: &Parts<'_>,
        hosts: &HostLinks<'s>,
        keys: &'s [Seq<Key>],
        entities: &[Seq<Entity>],
        tables: &mut Tables,
    ) -> Result<(), Memory>
        requires parts { AreParts parts.now }
        requires views { AreViewsOf (basis_of parts.now) self.now }
        requires keys { keys.now ≡ keys_in_sets parts.now.model.now entities.now }
        requires each { length tables.old ≡ length parts.now.store.now.tables }
        ensures kept { length tables.new ≡ length tables.old }
        ensures added { IfOk result (λ _. tables.new ≡ with_rows tables.old
            (flat_map (rows_of_set parts.now.model.now (local_rows self.now) (joined_row self.now) (links_in hosts.now)) (enumerate_from 0 entities.now))) }
    {
        for (index, of_set) in entities.iter().enumerate() {
            let Ok(number) = u32::try_from(index) else {
                return Err(Memory);
            };
            let set = SetId { index: number };
            let keys = keys[index].as_slice();
            self.add_entities(alloc, parts, hosts, set, keys, of_set.as_slice(), tables)?;
        }
        Ok(())
    }

    // Adds the rows of the entities of a set.
    fn add_entities<'s>(
        &self,
        alloc: Global,
        parts: &Parts<'_>,
        hosts: &HostLinks<'s>,
        set: SetId,
        keys: &'s [Key],
        entities: &[Entity],
        tables: &mut Tables,
    ) -> Result<(), Memory>
        requires parts { AreParts parts.now }
        requires views { AreViewsOf (basis_of parts.now) self.now }
        requires keys { keys.now ≡ map (key_of parts.now.model.now) entities.now }
        requires each { length tables.old ≡ length parts.now.store.now.tables }
        ensures kept { length tables.new ≡ length tables.old }
        ensures added { IfOk result (λ _. tables.new ≡ with_rows tables.old
            (rows_of_set parts.now.model.now (local_rows self.now) (joined_row self.now) (links_in hosts.now) (set.index, entities.now))) }
    {
        for (place, entity) in entities.iter().enumerate() {
            let links = hosts.at(set, &keys[place]);
            let rows = self.rows_of(alloc, set, entity, links)?;
            add_rows(rows, tables)?;
        }
        Ok(())
    }

    // Adds the rows of the links of each association set, where they have rows of their own.
    fn add_links(
        &self,
        alloc: Global,
        parts: &Parts<'_>,
        links: &[Seq<Link>],
        tables: &mut Tables,
    ) -> Result<(), Memory>
        requires parts { AreParts parts.now }
        requires views { AreViewsOf (basis_of parts.now) self.now }
        requires each { length tables.old ≡ length parts.now.store.now.tables }
        ensures kept { length tables.new ≡ length tables.old }
        ensures added { (hosted : SetId → List Value → List Hosted) → IfOk result (λ _. tables.new ≡ with_rows tables.old
            (flat_map (rows_of_links parts.now.model.now (local_rows self.now) (joined_row self.now) hosted) (enumerate_from 0 links.now))) }
    {
        for (index, of_assoc) in links.iter().enumerate() {
            let Ok(number) = u32::try_from(index) else {
                return Err(Memory);
            };
            let assoc = AssocId { index: number };
            self.add_links_of(alloc, parts, assoc, of_assoc.as_slice(), tables)?;
        }
        Ok(())
    }

    // Adds the rows of the links of an association set, where they have rows of their own.
    fn add_links_of(
        &self,
        alloc: Global,
        parts: &Parts<'_>,
        assoc: AssocId,
        links: &[Link],
        tables: &mut Tables,
    ) -> Result<(), Memory>
        requires parts { AreParts parts.now }
        requires views { AreViewsOf (basis_of parts.now) self.now }
        requires each { length tables.old ≡ length parts.now.store.now.tables }
        ensures kept { length tables.new ≡ length tables.old }
        ensures added { (hosted : SetId → List Value → List Hosted) → IfOk result (λ _. tables.new ≡ with_rows tables.old
            (rows_of_links parts.now.model.now (local_rows self.now) (joined_row self.now) hosted (assoc.index, links.now))) }
    {
        match self.joined_at(assoc) {
            Some(row) => add_link_rows(alloc, row, links, tables),
            None => Ok(()),
        }
    }
}

// Adds the row of each link.
fn add_link_rows(
    alloc: Global,
    row: &LinkRow,
    links: &[Link],
    tables: &mut Tables,
) -> Result<(), Memory>
    requires { row.now.table.index < length tables.old }
    ensures kept { length tables.new ≡ length tables.old }
    ensures added { IfOk result (λ _. tables.new ≡ with_rows tables.old (map (row_by_link row.now) links.now)) }
{
    for link in links {
        let placed = row.filled(alloc, link)?;
        tables.insert(placed.table, placed.row)?;
    }
    Ok(())
}

// Adds rows, each behind those of its table.
fn add_rows(rows: Vec<TableRow>, tables: &mut Tables) -> Result<(), Memory>
    requires { All (λ placed. placed.table.index < length tables.old) rows.items }
    ensures kept { length tables.new ≡ length tables.old }
    ensures added { IfOk result (λ _. tables.new ≡ with_rows tables.old rows.items) }
{
    for placed in rows {
        tables.insert(placed.table, placed.row)?;
    }
    Ok(())
}

// The keys of the entities of each set.
fn keys_in_sets(
    alloc: Global,
    model: &EntityModel,
    entities: &[Seq<Entity>],
) -> Result<Vec<Seq<Key>>, Memory>
    ensures { IfOk result (λ keys. keys.items ≡ keys_in_sets model.now entities.now) }
{
    let mut keys = Vec::with_capacity(alloc, entities.len())?;
    for of_set in entities {
        let of_set = keys_of(alloc, model, of_set.as_slice())?;
        keys.push(Seq::from_vec(of_set)?)?;
    }
    Ok(keys)
}
