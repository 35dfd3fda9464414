ghost use Rattle.std.specs.Prelude.{◌≡◌, ◌≤◌, ◌∷◌, IfOk, flat_map};
ghost use Rattle.cells.specs.Parts.{AreParts};
ghost use Rattle.host_states.specs.FocusStates.{by_assoc, partner_of};
ghost use Rattle.region_states.specs.region_basis.BasisOf.{basis_of};
ghost use Rattle.round_trip.specs.Words.{key_of};
ghost use Rattle.witness_state.specs.SmallRegions.{given_with, host_of, link_with, links_with, usual};

use crate::small_regions::hosts::{Hosting, linked_hosts};
use crate::small_regions::partners::{link_by, partner_by};
use cells::Parts;
use edm_types::Entity;
use emc_base::{Memory, Seq, SetId, put_found};
use population::{Placed, PlacedLink};
use regions::Region;
use std::alloc::Global;

/// Given entities, and links between them.
#[derive(Drop)]
pub struct Gathered {
    /// The entities in their sets: the one of a region first, then its partners in the order of the associations.
    pub given: Seq<Placed>,
    /// The links, in the order of the associations.
    pub links: Seq<PlacedLink>,
}

/// The entity of a region with its partners, whose keys are the usual ones by one of the five rows of numbered values, and its links to them.
/// `Memory` comes where memory ran out.
pub fn gather(
    alloc: Global,
    parts: &Parts<'_>,
    row: u32,
    region: &Region,
    entity: Entity,
) -> Result<Gathered, Memory>
    requires parts { AreParts parts.now }
    requires row { row ≤ 4 }
    ensures given { IfOk result (λ made. made.given ≡ given_with (basis_of parts.now) row region.now entity) }
    ensures links { IfOk result (λ made. made.links ≡ links_with (basis_of parts.now) row region.now entity) }
{
    let hosts = linked_hosts(alloc, parts, region)?;
    let links = links_by(alloc, parts, row, hosts.as_slice(), &entity)?;
    let focus = Placed {
        set: region.set,
        entity,
    };
    let given = given_by(alloc, parts, row, hosts.as_slice(), focus)?;
    Ok(Gathered { given, links })
}

// The links of an entity by these associations.
fn links_by(
    alloc: Global,
    parts: &Parts<'_>,
    row: u32,
    hosts: &[Hosting],
    entity: &Entity,
) -> Result<Seq<PlacedLink>, Memory>
    requires { row ≤ 4 }
    ensures { IfOk result (λ links. links
        ≡ flat_map (λ host. by_assoc (basis_of parts.now) (link_with (basis_of parts.now) row (key_of parts.now.model.now entity.now)) (host_of host)) hosts.now) }
{
    let mut links = Seq::empty(alloc);
    for host in hosts {
        put_found(&mut links, link_by(alloc, parts, row, *host, entity)?)?;
    }
    Ok(links)
}

// An entity with its partners by these associations.
fn given_by(
    alloc: Global,
    parts: &Parts<'_>,
    row: u32,
    hosts: &[Hosting],
    focus: Placed,
) -> Result<Seq<Placed>, Memory>
    requires { row ≤ 4 }
    ensures { IfOk result (λ given. given ≡ focus
        ∷ flat_map (λ host. by_assoc (basis_of parts.now) (partner_of (basis_of parts.now) row (usual (basis_of parts.now) row)) (host_of host)) hosts.now) }
{
    let mut given = Seq::empty(alloc);
    given.push(focus)?;
    for host in hosts {
        put_found(&mut given, partner_by(alloc, parts, row, *host)?)?;
    }
    Ok(given)
}
