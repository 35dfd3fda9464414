ghost use Rattle.std.specs.Prelude.{◌≡◌, ◌↔◌, All, IsTrue};
ghost use Rattle.std.specs.Ordering.{ordering_then};
ghost use Rattle.cells.specs.Parts.{AreParts};
ghost use Rattle.regions.specs.Regions.{Holds, TellsLinks};
ghost use Rattle.region_states.specs.region_basis.BasisOf.{basis_of};
ghost use Rattle.region_partition.specs.region_search.Standing.{IsTold, all_cmp, host_cmp, region_cmp, told_cmp};

use crate::region_search::atoms::{compare_told, is_told};
use crate::region_search::flags::compare_flags;
use cells::Parts;
use condition_logic::AtomOf;
use edm_types::{Entity, Hosted};
use regions::Region;
use std::cmp::Ordering;

/// Whether a region holds an entity with the links that it hosts. It takes any region, any entity and any links, and no memory.
pub fn holds(parts: &Parts<'_>, region: &Region, entity: &Entity, links: &[Hosted]) -> bool
    requires { AreParts parts.now }
    ensures { IsTrue result ↔ Holds (basis_of parts.now) region.now entity.now links.now }
{
    entity.ty == region.ty
        && are_told(parts, region.atoms.as_slice(), entity)
        && tells_links(parts, region, links)
}

// Whether the entity's values lie in the atoms.
fn are_told(parts: &Parts<'_>, atoms: &[AtomOf], entity: &Entity) -> bool
    requires { AreParts parts.now }
    ensures { IsTrue result ↔ All (IsTold (basis_of parts.now) entity.now) atoms.now }
{
    atoms.iter().all(|told| is_told(parts, told, entity))
}

// Whether the region's flags are those of the links.
fn tells_links(parts: &Parts<'_>, region: &Region, links: &[Hosted]) -> bool
    requires { AreParts parts.now }
    ensures { IsTrue result ↔ All (TellsLinks (basis_of parts.now) region.now links.now) ((basis_of parts.now).hosts region.now.set) }
{
    compare_flags(parts, region.set, region.linked.as_slice(), links).is_eq()
}

/// Where a region stands against an entity with the links that it hosts.
pub fn compare(parts: &Parts<'_>, region: &Region, entity: &Entity, links: &[Hosted]) -> Ordering
    requires { AreParts parts.now }
    ensures { result ≡ region_cmp (basis_of parts.now) entity.now links.now region.now }
{
    match region.ty.index.cmp(&entity.ty.index) {
        Ordering::Equal => compare_of_type(parts, region, entity, links),
        order => order,
    }
}

// The same by atoms and flags alone.
fn compare_of_type(
    parts: &Parts<'_>,
    region: &Region,
    entity: &Entity,
    links: &[Hosted],
) -> Ordering
    requires { AreParts parts.now }
    ensures { result ≡ ordering_then (all_cmp (told_cmp (basis_of parts.now) entity.now) region.now.atoms)
        (all_cmp (host_cmp (basis_of parts.now) links.now region.now.linked) ((basis_of parts.now).hosts region.now.set)) }
{
    match compare_all(parts, region.atoms.as_slice(), entity) {
        Ordering::Equal => compare_flags(parts, region.set, region.linked.as_slice(), links),
        order => order,
    }
}

// Where atoms stand against those of the entity's values.
fn compare_all(parts: &Parts<'_>, atoms: &[AtomOf], entity: &Entity) -> Ordering
    requires { AreParts parts.now }
    ensures { result ≡ all_cmp (told_cmp (basis_of parts.now) entity.now) atoms.now }
{
    for told in atoms {
        let order = compare_told(parts, told, entity);
        if order.is_ne() {
            return order;
        }
    }
    Ordering::Equal
}
