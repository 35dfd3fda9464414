ghost use Rattle.std.specs.Prelude.{◌≡◌, ◌++◌, ◌==◌, ◌&&◌, IfOk, map};
ghost use Rattle.std.specs.List.{list_any};
ghost use Rattle.cells.specs.Parts.{AreParts};
ghost use Rattle.emc_base.specs.Lists.{At};
ghost use Rattle.region_states.specs.region_basis.BasisOf.{basis_of};
ghost use Rattle.symbolic_rows.specs.Written.{in_symbols, writings_at, writings_by};

use crate::writing::{Writing, link_fragment_writing};
use cells::{LinkPlace, Parts};
use edm_types::{Assoc, End};
use emc_base::{AssocId, Memory};
use region_states::host_end;
use regions::Region;
use std::alloc::Global;

/// Adds what the links of an association write that an entity of the region hosts. `Memory` comes where memory ran out.
pub fn add_hosted_by(
    alloc: Global,
    parts: &Parts<'_>,
    region: &Region,
    id: AssocId,
    assoc: &Assoc,
    writings: &mut Vec<Writing>,
) -> Result<(), Memory>
    requires parts { AreParts parts.now }
    requires here { At parts.now.model.now.assocs id.index assoc.now }
    ensures { IfOk result (λ _. map in_symbols writings.new.items ≡ map in_symbols writings.old.items
        ++ writings_by (basis_of parts.now) parts.now.cells.now.places region.now (id.index, assoc.now)) }
{
    add_at(
        alloc,
        parts,
        region,
        id,
        assoc,
        parts.cells.link_place(id),
        writings,
    )
}

// The same where it is told where the links stand.
fn add_at(
    alloc: Global,
    parts: &Parts<'_>,
    region: &Region,
    id: AssocId,
    assoc: &Assoc,
    place: LinkPlace,
    writings: &mut Vec<Writing>,
) -> Result<(), Memory>
    requires parts { AreParts parts.now }
    requires here { At parts.now.model.now.assocs id.index assoc.now }
    requires told { At parts.now.cells.now.places id.index place }
    ensures { IfOk result (λ _. map in_symbols writings.new.items ≡ map in_symbols writings.old.items ++ writings_at (basis_of parts.now) region.now id assoc.now place) }
{
    let LinkPlace::Hosted {
        first_hosts,
        fragment,
    } = place
    else {
        return Ok(());
    };
    if !is_linked_at(region, id, host_end(first_hosts, assoc)) {
        return Ok(());
    }
    let Some(fragment) = parts.mapping.links.get(fragment.index as usize) else {
        unreachable!()
    };
    writings.push(link_fragment_writing(alloc, first_hosts, !first_hosts, fragment)?)?;
    Ok(())
}

// Whether entities of the region stand at the end, and have links of the association.
fn is_linked_at(region: &Region, id: AssocId, end: &End) -> bool
    ensures { result ≡ ((end.now.set.index == region.now.set.index) && list_any (λ linked. linked.index == id.index) region.now.linked) }
{
    end.set.index == region.set.index && is_linked(region, id)
}

/// Whether the region's entities have links of the association.
pub fn is_linked(region: &Region, id: AssocId) -> bool
    ensures { result ≡ list_any (λ linked. linked.index == id.index) region.now.linked }
{
    region
        .linked
        .as_slice()
        .iter()
        .any(|linked| linked.index == id.index)
}
