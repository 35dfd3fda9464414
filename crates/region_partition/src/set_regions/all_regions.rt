ghost use Rattle.std.specs.Prelude.{IfOk};
ghost use Rattle.cells.specs.Parts.{AreParts};
ghost use Rattle.region_partition.specs.mapping_limits.FirstLimit.{HaveFewRegions};
ghost use Rattle.region_states.specs.region_basis.BasisOf.{basis_of};
ghost use Rattle.region_partition.specs.set_regions.Regions.{AreRegions};

use crate::region_lists::{RegionsFault, regions};
use cells::Parts;
use emc_base::{Memory, Seq, SetId};
use regions::Region;
use std::alloc::Global;

/// The most regions that a set may have.
const MOST_REGIONS: u64 = 1_024;

/// The regions of each entity set, in the order of the model, each list in the order of regions. No set may have more regions than are allowed. `Memory`
/// comes where memory ran out.
pub fn regions_of_sets(alloc: Global, parts: &Parts<'_>) -> Result<Seq<Seq<Region>>, Memory>
    requires parts { AreParts parts.now }
    requires few { HaveFewRegions (basis_of parts.now) }
    ensures { IfOk result (AreRegions (basis_of parts.now)) }
{
    let mut of_sets = Seq::empty(alloc);
    for (index, _) in parts.model.sets.as_slice().iter().enumerate() {
        let set = SetId {
            index: index as u32,
        };
        match regions(alloc, parts, set, MOST_REGIONS) {
            Ok(of_set) => of_sets.push(of_set)?,
            Err(RegionsFault::Memory) => return Err(Memory),
            Err(RegionsFault::Limit { .. }) => unreachable!(),
        }
    }
    Ok(of_sets)
}
