ghost use Rattle.std.specs.Prelude.{◌≡◌, ◌==◌};
ghost use Rattle.std.specs.List.{list_any};
ghost use Rattle.emc_base.specs.Lists.{At};
ghost use Rattle.cells.specs.Parts.{AreParts, schema_in};
ghost use Rattle.regions.specs.region_laws.RegionAt.{has_link};
ghost use Rattle.region_states.specs.region_basis.BasisOf.{basis_of, host_at};
ghost use Rattle.region_partition.specs.region_search.Standing.{all_cmp, flag_cmp, host_cmp};

use cells::{LinkPlace, Parts};
use edm_types::{Assoc, Hosted, Mult};
use emc_base::{AssocId, SetId};
use region_states::{host_end, partner_end};
use std::cmp::Ordering;

/// Where flags stand against the links that an entity hosts, by the associations that are hosted at a set. One that lets an entity have
/// any number of partners isn't looked at.
pub fn compare_flags(
    parts: &Parts<'_>,
    set: SetId,
    linked: &[AssocId],
    links: &[Hosted],
) -> Ordering
    requires { AreParts parts.now }
    ensures { result ≡ all_cmp (host_cmp (basis_of parts.now) links.now linked.now) ((basis_of parts.now).hosts set) }
{
    for (index, assoc) in parts.model.assocs.as_slice().iter().enumerate() {
        let id = AssocId {
            index: index as u32,
        };
        let order = compare_at(parts, set, id, assoc, linked, links);
        if order.is_ne() {
            return order;
        }
    }
    Ordering::Equal
}

// The same of one association, where it is hosted at the set.
fn compare_at(
    parts: &Parts<'_>,
    set: SetId,
    id: AssocId,
    assoc: &Assoc,
    linked: &[AssocId],
    links: &[Hosted],
) -> Ordering
    requires are { AreParts parts.now }
    requires there { At (schema_in parts.now).model.assocs id.index assoc.now }
    ensures { result ≡ all_cmp (host_cmp (basis_of parts.now) links.now linked.now) (host_at parts.now.cells.now.places set (id.index, assoc.now)) }
{
    let LinkPlace::Hosted { first_hosts, .. } = parts.cells.link_place(id) else {
        return Ordering::Equal;
    };
    if host_end(first_hosts, assoc).set != set {
        return Ordering::Equal;
    }
    compare_flag(
        partner_end(first_hosts, assoc).mult,
        has(linked, id),
        has_link(links, id),
    )
}

// A flag against whether there is a link.
fn compare_flag(partners: Mult, flag: bool, linked: bool) -> Ordering
    ensures { result ≡ flag_cmp partners flag linked }
{
    match partners {
        Mult::One | Mult::ZeroOrOne => flag.cmp(&linked),
        Mult::Many => Ordering::Equal,
    }
}

// Whether an association is one of these.
fn has(assocs: &[AssocId], assoc: AssocId) -> bool
    ensures { result ≡ list_any (λ a. a.index == assoc.index) assocs.now }
{
    assocs.iter().any(|other| other.index == assoc.index)
}

// Whether one of the links is of an association.
fn has_link(links: &[Hosted], assoc: AssocId) -> bool
    ensures { result ≡ has_link links.now assoc }
{
    links.iter().any(|hosted| hosted.assoc.index == assoc.index)
}
