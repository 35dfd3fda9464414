ghost use Rattle.std.specs.Prelude.{◌≡◌, ◌↔◌, ◌<◌, IfOk, IsTrue, MatchOption};
ghost use Rattle.groupings.specs.least_fault.Least.{IsLeast};
ghost use Rattle.layouts.specs.Faults.{fault_cmp};
ghost use Rattle.csdl_names.specs.csdl_lists.References.{names_in};
ghost use Rattle.ssdl_model.specs.ssdl_lists.Tables.{table_in, table_of};
ghost use Rattle.ssdl_model.specs.ssdl_rules.Owned.{HasTypeOfOther, IsEndless, IsOfNoTable, IsShared};

use crate::ssdl_lists::table_at;
use csdl_names::{Lookups, RawAssociation, RawEnd, RawSet};
use emc_base::Memory;
use groupings::Finder;
use layouts::{Fault, Rule, behind_member, fault_if, first_at};
use std::alloc::Global;

/// A store, in which names are looked up, beside the first table of each type.
#[derive(Drop)]
pub struct Owners<'a> {
    /// The store.
    pub lookups: &'a Lookups<'a>,
    /// The first table of each type.
    pub tables: &'a [Option<usize>],
    ghost owned: { table_in tables.now ≡ table_of (names_in lookups.now.model.now) lookups.now.model.now },
}

impl<'a> Owners<'a> {
    // Whether the type of a table is that of a table before it.
    fn has_type_of_other(&self, place: usize, set: &RawSet) -> bool
        ensures { IsTrue result ↔ HasTypeOfOther (names_in self.now.lookups.now.model.now) self.now.lookups.now.model.now place set.now }
    {
        let Some(ty) = self.lookups.type_named(&set.element) else {
            return false;
        };
        is_before(table_at(self.tables, ty), place)
    }

    // Whether the type of an end is that of no table.
    fn is_of_no_table(&self, end: &RawEnd) -> bool
        ensures { IsTrue result ↔ IsOfNoTable (names_in self.now.lookups.now.model.now) self.now.lookups.now.model.now end.now }
    {
        let Some(ty) = self.lookups.type_named(&end.ty) else {
            return false;
        };
        table_at(self.tables, ty).is_none()
    }
}

// Whether there is a first place, and it stands before this one.
fn is_before(first: Option<usize>, place: usize) -> bool
    ensures { IsTrue result ↔ MatchOption first ⊥ (λ first. first < place) }
{
    first.is_some_and(|first| first < place)
}

/// V6: a table whose type is that of a table before it.
impl<'a> Finder<RawSet, Fault> for Owners<'a> {
    ghost use Rattle.ssdl_model.specs.ssdl_rules.Owned.{IsSharedFault};

    ghost wrong = { λ s. IsSharedFault (names_in s.lookups.now.model.now) s.lookups.now.model.now };

    fn find(&self, alloc: Global, place: usize, item: &RawSet) -> Result<Option<Fault>, Memory> {
        let is_broken = self.has_type_of_other(place, item);
        let found = fault_if(alloc, is_broken, Rule::NamedOnce, "EntityType")?;
        Ok(found)
    }
}

/// V7: an end whose type is that of no table.
impl<'a> Finder<RawEnd, Fault> for Owners<'a> {
    ghost use Rattle.ssdl_model.specs.ssdl_rules.Owned.{IsEndlessFault};

    ghost wrong = { λ s. IsEndlessFault (names_in s.lookups.now.model.now) s.lookups.now.model.now };

    fn find(&self, alloc: Global, _place: usize, item: &RawEnd) -> Result<Option<Fault>, Memory> {
        let found = fault_if(alloc, self.is_of_no_table(item), Rule::Resolves, "Type")?;
        Ok(found)
    }
}

/// V7: an association that has such an end.
impl<'a> Finder<RawAssociation, Fault> for Owners<'a> {
    ghost use Rattle.ssdl_model.specs.ssdl_rules.Owned.{HasEndlessFault};

    ghost wrong = { λ s. HasEndlessFault (names_in s.lookups.now.model.now) s.lookups.now.model.now };

    fn find(
        &self,
        alloc: Global,
        _place: usize,
        item: &RawAssociation,
    ) -> Result<Option<Fault>, Memory> {
        let found = first_at(alloc, "End", self, &item.ends)?;
        Ok(found)
    }
}

/// The least of the tables whose type is that of a table before them. `Memory` comes where memory ran out.
pub fn first_shared(alloc: Global, owners: &Owners<'_>) -> Result<Option<Fault>, Memory>
    ensures { IfOk result (λ found. IsLeast fault_cmp (IsShared owners.now.lookups.now.model.now) found) }
{
    let sets = &owners.lookups.model.container.sets;
    let inside = first_at(alloc, "EntitySet", owners, sets)?;
    let found = behind_member(alloc, "EntityContainer", inside)?;
    Ok(found)
}

/// The least of the ends of foreign keys whose type is that of no table. `Memory` comes where memory ran out.
pub fn first_endless(alloc: Global, owners: &Owners<'_>) -> Result<Option<Fault>, Memory>
    ensures { IfOk result (λ found. IsLeast fault_cmp (IsEndless owners.now.lookups.now.model.now) found) }
{
    let associations = &owners.lookups.model.associations;
    let found = first_at(alloc, "Association", owners, associations)?;
    Ok(found)
}
