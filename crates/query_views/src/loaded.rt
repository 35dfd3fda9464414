ghost use Rattle.std.specs.Prelude.{◌≡◌, ◌==◌, ◌<◌, length, position, slice_get};
ghost use Rattle.std.specs.Option.{option_copied, option_map};
ghost use Rattle.emc_base.specs.ValueRefs.{shown_value};
ghost use Rattle.cells.specs.Cells.{is_free_in};
ghost use Rattle.cells.specs.Parts.{AreParts, schema_in};
ghost use Rattle.region_states.specs.region_basis.BasisOf.{basis_of};
ghost use Rattle.round_trip.specs.Words.{AreLegalTables, At, Entity, Link, RoundTrips, entities_in, links_in, value_of};
ghost use Rattle.query_views.specs.Answers.{Lends, LendsSets};
ghost use Rattle.query_views.specs.Lent.{key_at, lent_entity, lent_state};
ghost use Rattle.query_views.specs.Views.{AreQueryViewsOf};

use crate::fault::StateFault;
use crate::lending::{LentEntity, lent_set};
use crate::links::{LentLinks, lent_links};
use crate::views::QueryViews;
use cells::Parts;
use edm_types::EntityModel;
use emc_base::{AssocId, PropId, SetId, TypeId, ValueRef};
use region_partition::props_of;
use region_states::parts_are_a_basis;
use std::alloc::Global;
use table_files::Tables;

/// The entities and links that tables tell, lent: the entities of each set in the order of their keys, their values from rows or from constants of the views; and
/// the links of each association set in the order of the key at the first end and then of that at the second, their keys from rows.
#[derive(Drop)]
pub struct Loaded<'t> {
    pub(crate) model: &'t EntityModel,
    pub(crate) sets: Vec<Vec<LentEntity<'t>>>,
    pub(crate) links: Vec<LentLinks<'t>>,
}

impl<'t> Loaded<'t> {
    /// The entities that legal tables tell by the query views of a mapping: for each key at which rows stand the entity that is told by the first case that they
    /// meet, with the links that this hosts, and for each row of an association's own table its link. `NoCase` comes exactly where the rows at some key meet none,
    /// with the first, by set and key; and `Memory` where memory ran out. The rows are put in the order of keys, table by table and then all together, and so are
    /// the links of each association.
    pub fn of(
        alloc: Global,
        views: &'t QueryViews,
        parts: &Parts<'t>,
        tables: &'t Tables,
    ) -> Result<Loaded<'t>, StateFault>
        requires parts { AreParts parts.now }
        requires views { AreQueryViewsOf (basis_of parts.now) (is_free_in parts.now.cells.now) views.now }
        requires round_trips { RoundTrips (schema_in parts.now) }
        requires legal { AreLegalTables parts.now.store.now tables.now }
        ensures { Lends (basis_of parts.now) (is_free_in parts.now.cells.now) tables.now result }
    {
        parts_are_a_basis();
        let sets = lent_sets(alloc, views, parts, tables)?;
        let links = lent_links(alloc, parts, tables, sets.as_slice())?;
        Ok(Loaded {
            model: parts.model,
            sets,
            links,
        })
    }

    /// How many entities of a set there are; none where there is no such set.
    pub fn len(&self, set: SetId) -> usize
        ensures { result ≡ length (entities_in (lent_state self.now) set) }
    {
        match self.sets.get(set.index as usize) {
            Some(of_set) => of_set.len(),
            None => 0,
        }
    }

    /// The type of the entity at a place of a set, counted from 0 in the order of keys.
    pub fn type_of(&self, set: SetId, i: usize) -> TypeId
        requires { i < length (entities_in (lent_state self.now) set) }
        ensures { (entity : Entity) → At (entities_in (lent_state self.now) set) i entity → result ≡ entity.ty }
    {
        match self.entity(set, i) {
            Some(one) => one.met.case.region.ty,
            None => unreachable!(),
        }
    }

    /// Lends the value of a property of this entity; null where its type has no such property.
    pub fn property(&self, set: SetId, i: usize, prop: PropId) -> ValueRef<'t>
        requires { i < length (entities_in (lent_state self.now) set) }
        ensures { (entity : Entity) → At (entities_in (lent_state self.now) set) i entity → shown_value result ≡ value_of self.now.model.now entity prop }
    {
        match self.entity(set, i) {
            Some(one) => lent_value(self.model, one, prop),
            None => unreachable!(),
        }
    }

    /// How many links of an association set there are; none where there is no such set, and none of one whose association has a constraint.
    pub fn link_len(&self, assoc: AssocId) -> usize
        ensures { result ≡ length (links_in (lent_state self.now) assoc) }
    {
        match self.links.get(assoc.index as usize) {
            Some(of_assoc) => of_assoc.keys.len(),
            None => 0,
        }
    }

    /// Lends a part of the key at an end of the link at a place of an association set. Links are counted from 0 in the order of the key at the first end and then
    /// of that at the second, and parts from 0 in the order of the key.
    pub fn link_part(&self, assoc: AssocId, i: usize, first: bool, part: usize) -> ValueRef<'t>
        requires { (link : Link) × At (links_in (lent_state self.now) assoc) i link × (part < length (key_at first link)) }
        ensures { (link : Link) → At (links_in (lent_state self.now) assoc) i link → At (key_at first link) part (shown_value result) }
    {
        match self.links.get(assoc.index as usize) {
            Some(of_assoc) => of_assoc.part(i, first, part),
            None => unreachable!(),
        }
    }

    // The entity at a place of a set; `None` where there is none.
    fn entity(&self, set: SetId, i: usize) -> Option<&LentEntity<'t>>
        ensures { option_map lent_entity (option_copied result) ≡ slice_get (entities_in (lent_state self.now) set) i }
    {
        match self.sets.get(set.index as usize) {
            Some(of_set) => lent_at(of_set.as_slice(), i),
            None => None,
        }
    }
}

// The entities of all sets that tables tell.
fn lent_sets<'t>(
    alloc: Global,
    views: &'t QueryViews,
    parts: &Parts<'_>,
    tables: &'t Tables,
) -> Result<Vec<Vec<LentEntity<'t>>>, StateFault>
    requires parts { AreParts parts.now }
    requires views { AreQueryViewsOf (basis_of parts.now) (is_free_in parts.now.cells.now) views.now }
    requires round_trips { RoundTrips (schema_in parts.now) }
    requires legal { AreLegalTables parts.now.store.now tables.now }
    ensures { LendsSets (basis_of parts.now) (is_free_in parts.now.cells.now) tables.now result }
{
    let mut sets = Vec::new(alloc);
    for index in 0..parts.model.sets.len() {
        let set = SetId {
            index: index as u32,
        };
        sets.push(lent_set(alloc, views, parts, tables, set)?)?;
    }
    Ok(sets)
}

// Lends the entity at a place; `None` where there is none.
fn lent_at<'a, 't>(lent: &'a [LentEntity<'t>], i: usize) -> Option<&'a LentEntity<'t>>
    ensures { option_copied result ≡ slice_get lent.now i }
{
    lent.get(i)
}

// Lends the value of a property of an entity; null where its type has no such property.
fn lent_value<'t>(model: &EntityModel, one: &LentEntity<'t>, prop: PropId) -> ValueRef<'t>
    ensures { shown_value result ≡ value_of model.now (lent_entity one.now) prop }
{
    let props = props_of(model, one.met.case.region.ty);
    match place_of(props, prop) {
        Some(place) => one.met.reading.value(one.rows.as_slice(), place),
        None => ValueRef::Null,
    }
}

// The place at which a property stands first; `None` where it stands at none.
fn place_of(props: &[PropId], prop: PropId) -> Option<usize>
    ensures { result ≡ position (λ other. other.index == prop.index) props.now }
{
    props.iter().position(|other| other.index == prop.index)
}
