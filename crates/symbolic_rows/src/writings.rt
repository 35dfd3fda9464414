ghost use Rattle.std.specs.Prelude.{◌≡◌, ◌++◌, ◌==◌, ◌&&◌, IfOk, flat_map, map, false};
ghost use Rattle.std.specs.List.{enumerate_from};
ghost use Rattle.cells.specs.Parts.{AreParts};
ghost use Rattle.region_states.specs.region_basis.BasisOf.{basis_of};
ghost use Rattle.regions.specs.Symbols.{fragment_writing, fragments_of, link_fragment_writing, link_fragments_of, link_writings, region_writings, selects_region};
ghost use Rattle.symbolic_rows.specs.Written.{in_symbols, writings_by};

use crate::hosting::add_hosted_by;
use crate::selects::selects;
use crate::writing::{Writing, fragment_writing, link_fragment_writing};
use cells::Parts;
use edm_types::Fragment;
use emc_base::{AssocId, Memory};
use regions::Region;
use std::alloc::Global;

/// What an entity of a region writes with its hosted links. `Memory` comes where memory ran out.
pub fn region_writings(
    alloc: Global,
    parts: &Parts<'_>,
    region: &Region,
) -> Result<Vec<Writing>, Memory>
    requires { AreParts parts.now }
    ensures { IfOk result (λ writings. map in_symbols writings.items ≡ region_writings (basis_of parts.now) region.now) }
{
    let mut writings = Vec::new(alloc);
    add_entities(alloc, parts, region, &mut writings)?;
    add_hosted(alloc, parts, region, &mut writings)?;
    Ok(writings)
}

/// What a link of a joined association writes. `Memory` comes where memory ran out.
pub fn link_writings(
    alloc: Global,
    parts: &Parts<'_>,
    assoc: AssocId,
) -> Result<Vec<Writing>, Memory>
    requires { AreParts parts.now }
    ensures { IfOk result (λ writings. map in_symbols writings.items ≡ link_writings (basis_of parts.now) assoc) }
{
    let mut writings = Vec::new(alloc);
    add_links(alloc, parts, assoc, &mut writings)?;
    Ok(writings)
}

// Adds what an entity of the region writes.
fn add_entities(
    alloc: Global,
    parts: &Parts<'_>,
    region: &Region,
    writings: &mut Vec<Writing>,
) -> Result<(), Memory>
    requires { AreParts parts.now }
    ensures { IfOk result (λ _. map in_symbols writings.new.items ≡ map in_symbols writings.old.items ++ map fragment_writing (fragments_of (basis_of parts.now) region.now)) }
{
    for fragment in parts.mapping.fragments.as_slice() {
        if writes(parts, region, fragment) {
            writings.push(fragment_writing(alloc, fragment)?)?;
        }
    }
    Ok(())
}

/// Whether a fragment is one of the region's set and selects the region's entities.
pub fn writes(parts: &Parts<'_>, region: &Region, fragment: &Fragment) -> bool
    requires { AreParts parts.now }
    ensures { result ≡ ((fragment.now.set.index == region.now.set.index) && selects_region (basis_of parts.now) region.now fragment.now) }
{
    fragment.set.index == region.set.index
        && selects(parts.model, region.ty, region.atoms.as_slice(), fragment)
}

// Adds what the links write that an entity of the region hosts.
fn add_hosted(
    alloc: Global,
    parts: &Parts<'_>,
    region: &Region,
    writings: &mut Vec<Writing>,
) -> Result<(), Memory>
    requires { AreParts parts.now }
    ensures { IfOk result (λ _. map in_symbols writings.new.items ≡ map in_symbols writings.old.items
        ++ flat_map (writings_by (basis_of parts.now) parts.now.cells.now.places region.now) (enumerate_from 0 parts.now.model.now.assocs)) }
{
    for (index, assoc) in parts.model.assocs.as_slice().iter().enumerate() {
        let id = AssocId {
            index: index as u32,
        };
        add_hosted_by(alloc, parts, region, id, assoc, writings)?;
    }
    Ok(())
}

// Adds what a link of the association writes.
fn add_links(
    alloc: Global,
    parts: &Parts<'_>,
    assoc: AssocId,
    writings: &mut Vec<Writing>,
) -> Result<(), Memory>
    ensures { IfOk result (λ _. map in_symbols writings.new.items ≡ map in_symbols writings.old.items
        ++ map (link_fragment_writing false false) (link_fragments_of (basis_of parts.now) assoc)) }
{
    for fragment in parts.mapping.links.as_slice() {
        if fragment.assoc.index == assoc.index {
            writings.push(link_fragment_writing(alloc, false, false, fragment)?)?;
        }
    }
    Ok(())
}
