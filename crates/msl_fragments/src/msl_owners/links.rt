ghost use Rattle.std.specs.Prelude.{◌≡◌, List, IfOk, OnOk};
ghost use Rattle.std.specs.List.{flat_map};
ghost use Rattle.msl_rules.specs.OwnerRules.{placed, writers_at_link, writers_of_both, writers_of_end, writers_of_link};
ghost use Rattle.msl_rules.specs.Sites.{link_place, link_sites};
ghost use Rattle.msl_fragments.specs.msl_owners.AllWriters.{Adds};
ghost use Rattle.msl_fragments.specs.msl_owners.Spots.{place_of};

use crate::msl_owners::all_writers::AllWriters;
use crate::msl_owners::key_writers::set_writer;
use crate::msl_owners::spots::Spot;
use edm_types::{Assoc, End, LinkFragment, Pair};
use emc_base::{Memory, Seq, Txt};
use msl_meaning::make_link;
use msl_rules::{RawLinkMapping, RawMapping};
use schema_names::SchemaNames;
use std::alloc::Global;
use table_owners::{Owner, Writer, is_hosted, is_joined};

/// Adds what the mappings of association sets write. `Memory` comes where memory ran out.
pub fn add_links(
    alloc: Global,
    all: &mut AllWriters,
    names: &SchemaNames<'_>,
    raw: &RawMapping,
) -> Result<(), Memory>
    ensures { OnOk result (Adds all.old all.new (flat_map (writers_at_link names.now.model.now names.now.store.now) (link_sites raw.now))) }
{
    for (place, link) in raw.links.as_slice().iter().enumerate() {
        add_link(alloc, all, names, place as u32, link)?;
    }
    Ok(())
}

// Adds what the mapping of an association set writes, which stands at this place in its list.
fn add_link(
    alloc: Global,
    all: &mut AllWriters,
    names: &SchemaNames<'_>,
    place: u32,
    link: &RawLinkMapping,
) -> Result<(), Memory>
    ensures { OnOk result (Adds all.old all.new (writers_at_link names.now.model.now names.now.store.now (record { place = link_place place; link = link.now }))) }
{
    let Some(set) = names.association_set_named(link.name.as_str()) else {
        return Ok(());
    };
    let Some(assoc) = names.model.assocs.get(set) else {
        return Ok(());
    };
    let Some(table) = names.table_named(link.table.as_str()) else {
        return Ok(());
    };
    let here = Txt::of(alloc, "")?;
    let made = make_link(alloc, names, here, link, set, assoc, table)?;
    let of = OfLink {
        names,
        spot: Spot::Link(place),
        made: &made,
    };
    of.add(alloc, all, assoc)?;
    Ok(())
}

/// A link fragment, and where it stands.
#[derive(Clone, Copy)]
struct OfLink<'a> {
    names: &'a SchemaNames<'a>,
    spot: Spot,
    made: &'a LinkFragment,
}

impl<'a> OfLink<'a> {
    // Adds what it writes, where this is its association.
    fn add(&self, alloc: Global, all: &mut AllWriters, assoc: &Assoc) -> Result<(), Memory>
        ensures { OnOk result (Adds all.old all.new (placed self.now.names.now.model.now self.now.names.now.store.now (place_of self.now.spot) (writers_of_link self.now.names.now.model.now self.now.names.now.store.now self.now.made.now assoc.now))) }
    {
        self.add_end(alloc, all, &assoc.first, &self.made.first)?;
        self.add_end(alloc, all, &assoc.second, &self.made.second)?;
        self.add_both(alloc, all, assoc)?;
        Ok(())
    }

    // Adds what it writes by the pairs of this end, where the links are hosted there.
    fn add_end(
        &self,
        alloc: Global,
        all: &mut AllWriters,
        end: &End,
        pairs: &Seq<Pair>,
    ) -> Result<(), Memory>
        ensures { OnOk result (Adds all.old all.new (placed self.now.names.now.model.now self.now.names.now.store.now (place_of self.now.spot) (writers_of_end self.now.names.now.model.now self.now.names.now.store.now self.now.made.now end.now pairs.now))) }
    {
        let table = self.made.table;
        if !is_hosted(self.names.store, table, pairs.as_slice()) {
            return Ok(());
        }
        let writer = set_writer(alloc, self.names, end.set, table, pairs.as_slice())?;
        all.push(self.spot, writer)?;
        Ok(())
    }

    // Adds what it writes by both ends, where the links are joined.
    fn add_both(&self, alloc: Global, all: &mut AllWriters, assoc: &Assoc) -> Result<(), Memory>
        ensures { OnOk result (Adds all.old all.new (placed self.now.names.now.model.now self.now.names.now.store.now (place_of self.now.spot) (writers_of_both self.now.names.now.model.now self.now.names.now.store.now self.now.made.now assoc.now))) }
    {
        if !is_joined(self.names.store, self.made, assoc) {
            return Ok(());
        }
        let writer = Writer {
            table: self.made.table,
            owner: Owner::Assoc(self.made.assoc),
            key: Seq::empty(alloc),
        };
        all.push(self.spot, writer)?;
        Ok(())
    }
}
