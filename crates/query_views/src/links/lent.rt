ghost use Rattle.std.specs.Prelude.{◌≡◌, ◌<◌, IfOk, length};
ghost use Rattle.cells.specs.Cells.{is_free_in};
ghost use Rattle.cells.specs.Parts.{AreParts};
ghost use Rattle.emc_base.specs.ValueRefs.{shown_value};
ghost use Rattle.region_states.specs.region_basis.BasisOf.{basis_of};
ghost use Rattle.round_trip.specs.Words.{AreLegalTables, At, Link};
ghost use Rattle.query_views.specs.Answers.{AreLentLinks, AreLentLists, AreLentSets};
ghost use Rattle.query_views.specs.Lent.{key_at, link_of, shown_links, shown_values};
ghost use Rattle.query_views.specs.LinkKeys.{AreLinkKeys, shown_keys};

use crate::lending::LentEntity;
use crate::links::columns::key_props;
use crate::links::hosted::hosted_keys;
use crate::links::joined::joined_keys;
use crate::links::keys::{first_key, second_key};
use cells::{LinkPlace, Parts};
use edm_types::Assoc;
use emc_base::{AssocId, Memory, Value, ValueRef};
use keyed_rows::{KeyGroup, key_groups};
use region_states::host_end;
use std::alloc::Global;
use table_files::Tables;

/// The links of an association, lent.
#[derive(Drop)]
pub(crate) struct LentLinks<'t> {
    /// How many parts the key at the first end has.
    pub first_len: usize,
    /// Of each link the key at the first end, and behind it the key at the second.
    pub keys: Vec<KeyGroup<'t, ()>>,
}

impl<'t> LentLinks<'t> {
    /// Lends a part of the key at an end of the link at a place.
    pub fn part(&self, i: usize, first: bool, part: usize) -> ValueRef<'t>
        requires { (link : Link) × At (shown_links self.now) i link × (part < length (key_at first link)) }
        ensures { (link : Link) → At (shown_links self.now) i link → At (key_at first link) part (shown_value result) }
    {
        match self.keys.get(i) {
            Some(both) => value_at(end_key(both.key.as_slice(), self.first_len, first), part),
            None => unreachable!(),
        }
    }
}

// Lends the value at a place of a key.
fn value_at<'t>(key: &[&'t Value], part: usize) -> ValueRef<'t>
    requires { part < length key.now }
    ensures { At (shown_values key.now) part (shown_value result) }
{
    key[part].lend()
}

// That at an end among both keys.
fn end_key<'a, 't>(both: &'a [&'t Value], first_len: usize, first: bool) -> &'a [&'t Value]
    ensures { shown_values result.now ≡ key_at first (link_of first_len (shown_values both.now)) }
{
    if first {
        first_key(both, first_len)
    } else {
        second_key(both, first_len)
    }
}

/// The links of each association set that tables tell, by the entities that they tell. `Memory` comes where memory ran out.
pub(crate) fn lent_links<'t>(
    alloc: Global,
    parts: &Parts<'_>,
    tables: &'t Tables,
    sets: &[Vec<LentEntity<'t>>],
) -> Result<Vec<LentLinks<'t>>, Memory>
    requires parts { AreParts parts.now }
    requires legal { AreLegalTables parts.now.store.now tables.now }
    requires sets { AreLentSets (basis_of parts.now) (is_free_in parts.now.cells.now) tables.now sets.now }
    ensures { IfOk result (λ lists. AreLentLists (basis_of parts.now) (is_free_in parts.now.cells.now) tables.now lists.items) }
{
    let mut links = Vec::new(alloc);
    for index in 0..parts.model.assocs.len() {
        let assoc = AssocId {
            index: index as u32,
        };
        links.push(links_of(alloc, parts, tables, sets, assoc)?)?;
    }
    Ok(links)
}

// Those of an association.
fn links_of<'t>(
    alloc: Global,
    parts: &Parts<'_>,
    tables: &'t Tables,
    sets: &[Vec<LentEntity<'t>>],
    assoc: AssocId,
) -> Result<LentLinks<'t>, Memory>
    requires parts { AreParts parts.now }
    requires legal { AreLegalTables parts.now.store.now tables.now }
    requires sets { AreLentSets (basis_of parts.now) (is_free_in parts.now.cells.now) tables.now sets.now }
    requires assoc { assoc.index < length parts.now.model.now.assocs }
    ensures { IfOk result (AreLentLinks (basis_of parts.now) (is_free_in parts.now.cells.now) tables.now assoc) }
{
    let declared = parts.model.assocs.at(assoc.index as usize);
    let keyed = keys_of(alloc, parts, tables, sets, assoc, declared)?;
    Ok(LentLinks {
        first_len: key_props(parts.model, declared.first.ty).len(),
        keys: key_groups(alloc, keyed)?,
    })
}

// The keys of its links, in the order of entities or of rows. Where the links are hosted this is one walk over the entities of the set that hosts them, whose
// tables have a column for them at least.
fn keys_of<'t>(
    alloc: Global,
    parts: &Parts<'_>,
    tables: &'t Tables,
    sets: &[Vec<LentEntity<'t>>],
    assoc: AssocId,
    declared: &Assoc,
) -> Result<Vec<(Vec<&'t Value>, ())>, Memory>
    requires parts { AreParts parts.now }
    requires legal { AreLegalTables parts.now.store.now tables.now }
    requires sets { AreLentSets (basis_of parts.now) (is_free_in parts.now.cells.now) tables.now sets.now }
    requires assoc { At parts.now.model.now.assocs assoc.index declared.now }
    ensures { IfOk result (λ keyed. AreLinkKeys (basis_of parts.now) (is_free_in parts.now.cells.now) tables.now assoc (shown_keys keyed.items)) }
{
    match parts.cells.link_place(assoc) {
        LinkPlace::Hosted { first_hosts, .. } => {
            let host = host_end(first_hosts, declared).set;
            let entities = sets[host.index as usize].as_slice();
            hosted_keys(alloc, entities, assoc, first_hosts)
        }
        LinkPlace::Joined(number) => joined_keys(alloc, parts, tables, declared, number),
        LinkPlace::Unmapped | LinkPlace::Constraint => Ok(Vec::new(alloc)),
    }
}
