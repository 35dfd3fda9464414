ghost use Rattle.std.specs.Prelude.{◌≡◌, List, IfOk, OnOk};
ghost use Rattle.std.specs.List.{flat_map};
ghost use Rattle.msl_rules.specs.OwnerRules.{writers_at_site};
ghost use Rattle.msl_rules.specs.Sites.{fragment_place, sites, sites_of_set, sites_of_types};
ghost use Rattle.msl_fragments.specs.msl_owners.AllWriters.{Adds};

use crate::msl_owners::all_writers::AllWriters;
use crate::msl_owners::key_writers::fragment_writer;
use crate::msl_owners::spots::Spot;
use emc_base::{Memory, SetId, narrow};
use msl_meaning::{InTable, picked_type};
use msl_rules::{RawFragment, RawMapping, RawSetMapping, RawTypeMapping};
use schema_names::SchemaNames;
use std::alloc::Global;

/// The mapping of an entity set, and where it stands.
#[derive(Clone, Copy)]
struct OfSet<'a> {
    names: &'a SchemaNames<'a>,
    place: u32,
    set: &'a RawSetMapping,
}

/// A type mapping, and where it stands.
#[derive(Clone, Copy)]
struct OfTypes<'a> {
    of: OfSet<'a>,
    place: u32,
    types: &'a RawTypeMapping,
}

/// Adds what the mappings of entity sets write. `Memory` comes where memory ran out.
pub fn add_sets<'a>(
    alloc: Global,
    all: &mut AllWriters,
    names: &'a SchemaNames<'a>,
    raw: &'a RawMapping,
) -> Result<(), Memory>
    ensures { OnOk result (Adds all.old all.new (flat_map (writers_at_site names.now.model.now names.now.store.now) (sites raw.now))) }
{
    for (place, set) in raw.sets.as_slice().iter().enumerate() {
        let of = OfSet {
            names,
            place: place as u32,
            set,
        };
        of.add(alloc, all)?;
    }
    Ok(())
}

impl<'a> OfSet<'a> {
    // Adds what the type mappings write.
    fn add(&self, alloc: Global, all: &mut AllWriters) -> Result<(), Memory>
        ensures { OnOk result (Adds all.old all.new (flat_map (writers_at_site self.now.names.now.model.now self.now.names.now.store.now) (sites_of_set self.now.place self.now.set.now))) }
    {
        for (place, types) in self.set.types.as_slice().iter().enumerate() {
            let of = OfTypes {
                of: *self,
                place: place as u32,
                types,
            };
            of.add(alloc, all)?;
        }
        Ok(())
    }
}

impl<'a> OfTypes<'a> {
    // Adds what the fragments write.
    fn add(&self, alloc: Global, all: &mut AllWriters) -> Result<(), Memory>
        ensures { OnOk result (Adds all.old all.new (flat_map (writers_at_site self.now.of.names.now.model.now self.now.of.names.now.store.now)
            (sites_of_types self.now.of.place self.now.of.set.now self.now.place self.now.types.now))) }
    {
        for (place, fragment) in self.types.fragments.as_slice().iter().enumerate() {
            self.add_fragment(alloc, all, place as u32, fragment)?;
        }
        Ok(())
    }

    // Adds what the fragment at this place writes, where its set and its table are found.
    fn add_fragment(
        &self,
        alloc: Global,
        all: &mut AllWriters,
        place: u32,
        fragment: &RawFragment,
    ) -> Result<(), Memory>
        ensures { OnOk result (Adds all.old all.new (writers_at_site self.now.of.names.now.model.now self.now.of.names.now.store.now
            (record { place = fragment_place self.now.of.place self.now.place place; set = self.now.of.set.now; types = self.now.types.now; fragment = fragment.now }))) }
    {
        let names = self.of.names;
        let Some(set) = names.set_named(self.of.set.name.as_str()) else {
            return Ok(());
        };
        let Some(table) = names.table_named(fragment.table.as_str()) else {
            return Ok(());
        };
        let ty = picked_type(names, self.types.picks.as_slice());
        let spot = Spot::Fragment(self.of.place, self.place, place);
        let owner = SetId {
            index: narrow(set)?,
        };
        let found = InTable { names, ty, table };
        let writer = fragment_writer(alloc, &found, owner, &fragment.pairs)?;
        all.push(spot, writer)?;
        Ok(())
    }
}
