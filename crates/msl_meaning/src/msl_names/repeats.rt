ghost use Rattle.std.specs.Prelude.{◌⊎◌, [], IfOk, codes};
ghost use Rattle.groupings.specs.least_fault.Least.{IsLeast};
ghost use Rattle.layouts.specs.Faults.{fault_cmp};
ghost use Rattle.layouts.specs.rule_places.Names.{IsRepeatedIn};
ghost use Rattle.layouts.specs.rule_places.Places.{InList};
ghost use Rattle.msl_rules.specs.NameRules.{IsMappedTwice};

use emc_base::Memory;
use groupings::{Finder, earlier, places_of};
use layouts::{Fault, behind_member, first_at, first_twice};
use msl_rules::{RawLinkMapping, RawMapping};
use std::alloc::Global;

/// Searches the mappings of association sets for roles that both ends name.
#[derive(Clone, Copy)]
struct Roles {}

impl Finder<RawLinkMapping, Fault> for Roles {
    ghost use Rattle.std.specs.Prelude.{[], codes};
    ghost use Rattle.layouts.specs.rule_places.Names.{IsRepeatedIn};

    ghost wrong = { λ _ _ link. IsRepeatedIn (λ end. end.role) [] (codes "EndProperty") (codes "Name") link.ends };

    fn find(
        &self,
        alloc: Global,
        _: usize,
        item: &RawLinkMapping,
    ) -> Result<Option<Fault>, Memory> {
        let places = places_of(alloc, &item.ends)?;
        let found = first_twice(alloc, "EndProperty", "Name", &item.ends, &places)?;
        Ok(found)
    }
}

/// The least of the sets that are mapped twice, and of the roles that are named twice in one mapping. `Memory` comes where memory ran out.
pub fn first_mapped_twice(alloc: Global, raw: &RawMapping) -> Result<Option<Fault>, Memory>
    ensures { IfOk result (λ found. IsLeast fault_cmp (IsMappedTwice raw.now) found) }
{
    let sets = first_set_twice(alloc, raw)?;
    let links = first_in_links(alloc, raw)?;
    behind_member(alloc, "EntityContainerMapping", earlier(sets, links))
}

// The first of the entity sets that are mapped twice.
fn first_set_twice(alloc: Global, raw: &RawMapping) -> Result<Option<Fault>, Memory>
    ensures { IfOk result (λ found. IsLeast fault_cmp (IsRepeatedIn (λ set. set.name) [] (codes "EntitySetMapping") (codes "Name") raw.now.sets) found) }
{
    let places = places_of(alloc, &raw.sets)?;
    first_twice(alloc, "EntitySetMapping", "Name", &raw.sets, &places)
}

// The least of the association sets that are mapped twice, and of the roles that are named twice in one mapping.
fn first_in_links(alloc: Global, raw: &RawMapping) -> Result<Option<Fault>, Memory>
    ensures { IfOk result (λ found. IsLeast fault_cmp (λ fault. IsRepeatedIn (λ link. link.name) [] (codes "AssociationSetMapping") (codes "Name") raw.now.links fault ⊎ InList (codes "AssociationSetMapping") (λ _ link. IsRepeatedIn (λ end. end.role) [] (codes "EndProperty") (codes "Name") link.ends) raw.now.links fault) found) }
{
    let links = first_link_twice(alloc, raw)?;
    let roles = first_at(alloc, "AssociationSetMapping", &Roles {}, &raw.links)?;
    Ok(earlier(links, roles))
}

// The first of the association sets that are mapped twice.
fn first_link_twice(alloc: Global, raw: &RawMapping) -> Result<Option<Fault>, Memory>
    ensures { IfOk result (λ found. IsLeast fault_cmp (IsRepeatedIn (λ link. link.name) [] (codes "AssociationSetMapping") (codes "Name") raw.now.links) found) }
{
    let places = places_of(alloc, &raw.links)?;
    first_twice(alloc, "AssociationSetMapping", "Name", &raw.links, &places)
}
