ghost use Rattle.std.specs.Prelude.{◌≡◌, ◌==◌, [], IfOk, filter, map};
ghost use Rattle.std.specs.List.{cons_option, list_any};
ghost use Rattle.cells.specs.Parts.{AreParts};
ghost use Rattle.emc_base.specs.Lists.{At};
ghost use Rattle.host_states.specs.FocusStates.{linked_hosts};
ghost use Rattle.region_states.specs.region_basis.BasisOf.{basis_of, hosts_told};
ghost use Rattle.witness_state.specs.SmallRegions.{host_of, linked_at};

use cells::Parts;
use edm_types::Assoc;
use emc_base::{AssocId, Memory, Seq, put_found};
use region_states::hosting_end;
use regions::Region;
use std::alloc::Global;
use symbolic_rows::is_linked;

/// An association whose links stand with the entities at one end, and whether this is the first.
#[derive(Clone, Copy)]
pub struct Hosting {
    /// The association.
    pub assoc: AssocId,
    /// Whether its links stand with the entities at its first end.
    pub first_hosts: bool,
}

/// The hosted associations of which a region has a link, in their order. `Memory` comes where memory ran out.
pub fn linked_hosts(
    alloc: Global,
    parts: &Parts<'_>,
    region: &Region,
) -> Result<Seq<Hosting>, Memory>
    requires { AreParts parts.now }
    ensures { IfOk result (λ hosts. map host_of hosts ≡ linked_hosts (basis_of parts.now) region.now) }
{
    let mut hosts = Seq::empty(alloc);
    for (index, assoc) in parts.model.assocs.as_slice().iter().enumerate() {
        let id = AssocId {
            index: index as u32,
        };
        put_found(&mut hosts, linked_host(parts, region, id, assoc))?;
    }
    Ok(hosts)
}

// The association, if the region's entities host its links and have one.
fn linked_host(parts: &Parts<'_>, region: &Region, id: AssocId, assoc: &Assoc) -> Option<Hosting>
    requires parts { AreParts parts.now }
    requires here { At parts.now.model.now.assocs id.index assoc.now }
    ensures { map host_of (cons_option result []) ≡ linked_at (basis_of parts.now) parts.now.cells.now.places region.now (id.index, assoc.now) }
{
    let end = hosting_end(region.set, assoc, parts.cells.link_place(id));
    host_by(region, id, end)
}

// The same where it is told which end hosts.
fn host_by(region: &Region, id: AssocId, end: Option<bool>) -> Option<Hosting>
    ensures { map host_of (cons_option result []) ≡ filter (λ host. list_any (λ linked. linked.index == host.assoc.index) region.now.linked) (hosts_told id end) }
{
    let first_hosts = end?;
    if !is_linked(region, id) {
        return None;
    }
    Some(Hosting {
        assoc: id,
        first_hosts,
    })
}
