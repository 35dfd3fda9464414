ghost use Rattle.std.specs.Prelude.{◌≡◌, ◌++◌, ◌≤◌, ◌<◌, ◌^◌, [], IfOk, flat_map, map};
ghost use Rattle.std.specs.List.{cons_option};
ghost use Rattle.host_states.specs.FocusStates.{by_assoc};
ghost use Rattle.population.specs.Numbered.{end_number};
ghost use Rattle.region_states.specs.region_basis.BasisOf.{basis_of};
ghost use Rattle.round_trip.specs.Words.{key_props};
ghost use Rattle.schema_laws.specs.short_values.Fresh.{added_value, fresh_at};
ghost use Rattle.witness_state.specs.SmallRegions.{host_of};
ghost use Rattle.dangling_states.specs.Numbers.{number_link, number_root};

use cells::Parts;
use edm_types::{Assoc, EntityModel};
use emc_base::{AssocId, Key, Memory, Seq, TypeId, put_found};
use population::{PlacedKey, PlacedLink};
use region_states::partner_end;
use std::alloc::Global;
use supported_states::fresh_at;
use witness_state::{Hosting, key_props, link_of};

// Where the indices of the entities of numbers begin, by the number of the first end of the first association.
const FIRST_END: u64 = 2001;

/// Adds the keys of the partners by these associations: they are the entities of the numbers of their ends. `Memory` comes where memory ran out.
pub fn add_partner_roots(
    alloc: Global,
    parts: &Parts<'_>,
    row: u32,
    hosts: &[Hosting],
    roots: &mut Seq<PlacedKey>,
) -> Result<(), Memory>
    requires { row ≤ 4 }
    ensures { IfOk result (λ _. roots.new ≡ roots.old ++ flat_map (λ host. by_assoc (basis_of parts.now) (number_root (basis_of parts.now) row) (host_of host)) hosts.now) }
{
    for host in hosts {
        put_found(roots, root_by(alloc, parts, row, *host)?)?;
    }
    Ok(())
}

/// Adds the links of an entity of this key to them. `Memory` comes where memory ran out.
pub fn add_partner_links(
    alloc: Global,
    parts: &Parts<'_>,
    row: u32,
    hosts: &[Hosting],
    key: &Key,
    links: &mut Seq<PlacedLink>,
) -> Result<(), Memory>
    requires { row ≤ 4 }
    ensures { IfOk result (λ _. links.new
        ≡ links.old ++ flat_map (λ host. by_assoc (basis_of parts.now) (number_link (basis_of parts.now) row key.now) (host_of host)) hosts.now) }
{
    for host in hosts {
        put_found(links, link_by(alloc, parts, row, *host, key)?)?;
    }
    Ok(())
}

// The key of the partner by an association; none where there is no such association.
fn root_by(
    alloc: Global,
    parts: &Parts<'_>,
    row: u32,
    host: Hosting,
) -> Result<Option<PlacedKey>, Memory>
    requires { row ≤ 4 }
    ensures { IfOk result (λ found. cons_option found [] ≡ by_assoc (basis_of parts.now) (number_root (basis_of parts.now) row) (host_of host)) }
{
    let Some(assoc) = parts.model.assocs.get(host.assoc.index as usize) else {
        return Ok(None);
    };
    Ok(Some(number_root(alloc, parts, row, host, assoc)?))
}

// The link to it; none where there is no such association.
fn link_by(
    alloc: Global,
    parts: &Parts<'_>,
    row: u32,
    host: Hosting,
    key: &Key,
) -> Result<Option<PlacedLink>, Memory>
    requires { row ≤ 4 }
    ensures { IfOk result (λ found. cons_option found [] ≡ by_assoc (basis_of parts.now) (number_link (basis_of parts.now) row key.now) (host_of host)) }
{
    let Some(assoc) = parts.model.assocs.get(host.assoc.index as usize) else {
        return Ok(None);
    };
    Ok(Some(number_link(alloc, parts, row, host, assoc, key)?))
}

// The same by the association's declaration.
fn number_link(
    alloc: Global,
    parts: &Parts<'_>,
    row: u32,
    host: Hosting,
    assoc: &Assoc,
    key: &Key,
) -> Result<PlacedLink, Memory>
    requires { row ≤ 4 }
    ensures { IfOk result (λ placed. placed ≡ number_link (basis_of parts.now) row key.now (host_of host) assoc.now) }
{
    let near = key.copy(alloc)?;
    let far = number_root(alloc, parts, row, host, assoc)?;
    Ok(PlacedLink {
        assoc: host.assoc,
        link: link_of(host.first_hosts, near, far.key),
    })
}

// The key of the partner by the association's declaration.
fn number_root(
    alloc: Global,
    parts: &Parts<'_>,
    row: u32,
    host: Hosting,
    assoc: &Assoc,
) -> Result<PlacedKey, Memory>
    requires { row ≤ 4 }
    ensures { IfOk result (λ placed. placed ≡ number_root (basis_of parts.now) row (host_of host) assoc.now) }
{
    let end = partner_end(host.first_hosts, assoc);
    let index = index_of_end(!host.first_hosts, host.assoc);
    Ok(PlacedKey {
        set: end.set,
        key: key_of_index(alloc, parts.model, row, end.ty, index)?,
    })
}

// The index of the values of the entities that have the number of an end.
fn index_of_end(first: bool, assoc: AssocId) -> u64
    ensures index { result ≡ added_value (end_number first assoc) }
    ensures bound { result < 2 ^ 48 }
{
    let place = 2 * u64::from(assoc.index);
    if first {
        FIRST_END + place
    } else {
        FIRST_END + place + 1
    }
}

// The key of a type, each part of which has this index.
fn key_of_index(
    alloc: Global,
    model: &EntityModel,
    row: u32,
    ty: TypeId,
    index: u64,
) -> Result<Key, Memory>
    requires row { row ≤ 4 }
    requires index { index < 2 ^ 48 }
    ensures { IfOk result (λ key. key ≡ map (λ p. fresh_at model.now row p index) (key_props model.now ty)) }
{
    let mut key = Seq::empty(alloc);
    for property in key_props(model, ty) {
        key.push(fresh_at(alloc, model, row, *property, index)?)?;
    }
    Ok(key)
}
