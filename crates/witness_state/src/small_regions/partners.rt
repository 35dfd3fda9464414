ghost use Rattle.std.specs.Prelude.{◌≡◌, ◌≤◌, [], IfOk};
ghost use Rattle.std.specs.List.{cons_option};
ghost use Rattle.cells.specs.Parts.{AreParts};
ghost use Rattle.host_states.specs.FocusStates.{by_assoc, partner_of, told_key};
ghost use Rattle.region_states.specs.region_basis.BasisOf.{basis_of};
ghost use Rattle.round_trip.specs.Words.{key_of};
ghost use Rattle.witness_state.specs.SmallRegions.{host_of, link_with, usual};

use crate::region_values::{default_part, key_props};
use crate::small_links::link_of;
use crate::small_regions::hosts::Hosting;
use cells::Parts;
use edm_types::{Assoc, Entity};
use emc_base::{Key, Memory, Seq};
use entity_state::key_of;
use population::{Placed, PlacedLink};
use region_states::partner_end;
use std::alloc::Global;
use supported_states::plain_entity;

/// The plain entity that is the partner by an association, with the usual key, by one of the five rows of numbered values; none where there
/// is no such association. `Memory` comes where memory ran out.
pub fn partner_by(
    alloc: Global,
    parts: &Parts<'_>,
    row: u32,
    host: Hosting,
) -> Result<Option<Placed>, Memory>
    requires { row ≤ 4 }
    ensures { IfOk result (λ found. cons_option found []
        ≡ by_assoc (basis_of parts.now) (partner_of (basis_of parts.now) row (usual (basis_of parts.now) row)) (host_of host)) }
{
    let Some(assoc) = parts.model.assocs.get(host.assoc.index as usize) else {
        return Ok(None);
    };
    Ok(Some(partner_of(alloc, parts, row, host, assoc)?))
}

// The same by the association's declaration.
fn partner_of(
    alloc: Global,
    parts: &Parts<'_>,
    row: u32,
    host: Hosting,
    assoc: &Assoc,
) -> Result<Placed, Memory>
    requires { row ≤ 4 }
    ensures { IfOk result (λ placed. placed ≡ partner_of (basis_of parts.now) row (usual (basis_of parts.now) row) (host_of host) assoc.now) }
{
    let end = partner_end(host.first_hosts, assoc);
    let key = told_key(alloc, parts, row, host, assoc)?;
    let entity = plain_entity(alloc, parts.model, row, 0, end.ty, &key)?;
    Ok(Placed {
        set: end.set,
        entity,
    })
}

// The key that is told of a partner.
fn told_key(
    alloc: Global,
    parts: &Parts<'_>,
    row: u32,
    host: Hosting,
    assoc: &Assoc,
) -> Result<Key, Memory>
    requires { row ≤ 4 }
    ensures { IfOk result (λ key. key ≡ told_key (basis_of parts.now) (usual (basis_of parts.now) row) (host_of host) assoc.now) }
{
    let end = partner_end(host.first_hosts, assoc);
    let mut key = Seq::empty(alloc);
    for property in key_props(parts.model, end.ty) {
        key.push(default_part(alloc, parts, row, host.assoc, !host.first_hosts, *property)?)?;
    }
    Ok(key)
}

/// The link of an entity to its partner by an association, whose key is the usual one by one of the five rows of numbered values; none where
/// there is no such association. `Memory` comes where memory ran out.
pub fn link_by(
    alloc: Global,
    parts: &Parts<'_>,
    row: u32,
    host: Hosting,
    entity: &Entity,
) -> Result<Option<PlacedLink>, Memory>
    requires { row ≤ 4 }
    ensures { IfOk result (λ found. cons_option found []
        ≡ by_assoc (basis_of parts.now) (link_with (basis_of parts.now) row (key_of parts.now.model.now entity.now)) (host_of host)) }
{
    let Some(assoc) = parts.model.assocs.get(host.assoc.index as usize) else {
        return Ok(None);
    };
    Ok(Some(link_to(alloc, parts, row, host, assoc, entity)?))
}

// The same by the association's declaration.
fn link_to(
    alloc: Global,
    parts: &Parts<'_>,
    row: u32,
    host: Hosting,
    assoc: &Assoc,
    entity: &Entity,
) -> Result<PlacedLink, Memory>
    requires { row ≤ 4 }
    ensures { IfOk result (λ placed. placed ≡ link_with (basis_of parts.now) row (key_of parts.now.model.now entity.now) (host_of host) assoc.now) }
{
    let key = key_of(alloc, parts.model, entity)?;
    let other = told_key(alloc, parts, row, host, assoc)?;
    Ok(PlacedLink {
        assoc: host.assoc,
        link: link_of(host.first_hosts, key, other),
    })
}
