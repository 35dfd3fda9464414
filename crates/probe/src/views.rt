ghost use Rattle.std.specs.Prelude.{IfSome};
ghost use Rattle.cells.specs.Parts.{AreParts};
ghost use Rattle.region_partition.specs.set_regions.Regions.{AreRegions};
ghost use Rattle.region_states.specs.region_basis.BasisOf.{basis_of};

mod linking;
mod loading;

use cells::Parts;
use emc_base::Seq;
pub use linking::{put_rows, put_views};
pub use loading::put_told;
use region_partition::{first_limit, regions_of_sets};
use regions::Region;
use std::alloc::Global;

// The regions of all sets; `None` where a limit is passed, or memory ran out.
pub(crate) fn all_regions(alloc: Global, parts: &Parts<'_>) -> Option<Seq<Seq<Region>>>
    requires { AreParts parts.now }
    ensures { IfSome result (AreRegions (basis_of parts.now)) }
{
    if first_limit(alloc, parts).ok()?.is_some() {
        return None;
    }
    regions_of_sets(alloc, parts).ok()
}
