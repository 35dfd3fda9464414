ghost use Rattle.std.specs.Prelude.{◌≡◌, Contains, IfNone, IfSome};
ghost use Rattle.emc_base.specs.Lists.{At};
ghost use Rattle.cells.specs.Parts.{AreParts};
ghost use Rattle.regions.specs.Regions.{Holds, regions_of};
ghost use Rattle.regions.specs.declared.region.Region.{Region};
ghost use Rattle.regions.specs.region_laws.RegionAt.{region_at};
ghost use Rattle.region_states.specs.region_basis.BasisOf.{basis_of};
ghost use Rattle.region_partition.specs.region_search.Standing.{FindsEqual, region_cmp};
ghost use Rattle.region_partition.specs.region_search.StandsIn.{StandsIn};

use crate::region_search::standing::{compare, holds};
use cells::Parts;
use edm_types::{Entity, Hosted};
use emc_base::{Seq, SetId};
use regions::Region;

/// The place of the region that holds an entity with the links that it hosts; `None` exactly where none of the set's regions does. It takes
/// any entity and any links, and no memory: a binary search.
pub fn find_region(
    parts: &Parts<'_>,
    regions: &Seq<Region>,
    set: SetId,
    entity: &Entity,
    links: &Seq<Hosted>,
) -> Option<usize>
    requires parts { AreParts parts.now }
    requires are { regions.now ≡ regions_of (basis_of parts.now) set }
    ensures found { IfSome result (λ place. (region : Region) × At regions.now place region × Holds (basis_of parts.now) region entity.now links.now) }
    ensures none { IfNone result ((region : Region) → Contains regions.now region → ¬ Holds (basis_of parts.now) region entity.now links.now) }
{
    let place = place_of(parts, regions.as_slice(), entity, links.as_slice())?;
    if holds(parts, regions.at(place), entity, links.as_slice()) {
        Some(place)
    } else {
        None
    }
}

// The place of a region that stands equal to the entity with its links.
fn place_of(
    parts: &Parts<'_>,
    regions: &[Region],
    entity: &Entity,
    links: &[Hosted],
) -> Option<usize>
    requires { AreParts parts.now }
    ensures { FindsEqual (region_cmp (basis_of parts.now) entity.now links.now) regions.now result }
{
    regions
        .binary_search_by(|region| compare(parts, region, entity, links))
        .ok()
}

/// The place of the one region that holds an entity of a legal state with the links that it hosts.
pub fn region_of(
    parts: &Parts<'_>,
    regions: &Seq<Region>,
    set: SetId,
    entity: &Entity,
    links: &Seq<Hosted>,
) -> usize
    requires parts { AreParts parts.now }
    requires are { regions.now ≡ regions_of (basis_of parts.now) set }
    requires legal { StandsIn (basis_of parts.now) set entity.now links.now }
    ensures place { At regions.now result (region_at (basis_of parts.now) set entity.now links.now) }
    ensures holds { Holds (basis_of parts.now) (region_at (basis_of parts.now) set entity.now links.now) entity.now links.now }
{
    match find_region(parts, regions, set, entity, links) {
        Some(place) => place,
        None => unreachable!(),
    }
}
