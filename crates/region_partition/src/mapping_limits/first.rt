ghost use Rattle.std.specs.Prelude.{◌≡◌, IfOk, None};
ghost use Rattle.cells.specs.Cells.{TellsCells};
ghost use Rattle.cells.specs.Parts.{AreParts, schema_in};
ghost use Rattle.round_trip.specs.soundness.mappings.Mappings.{IsSoundSchema};
ghost use Rattle.region_states.specs.region_basis.BasisOf.{basis_of};
ghost use Rattle.region_partition.specs.mapping_limits.Checked.{TellsFirst};
ghost use Rattle.region_partition.specs.mapping_limits.FirstLimit.{HaveFewRegions, IsFirstLimit, limits_passed};

use crate::mapping_limits::by_cells::{check_constants, check_regions};
use crate::mapping_limits::documents::{check_mapping, check_model, check_store};
use crate::mapping_limits::passed::Passed;
use cells::Parts;
use edm_types::LimitFault;
use emc_base::Memory;
use std::alloc::Global;

/// The first limit that a mapping passes, in the order of limits, at its first type, table, property or set, with how many there are; `None` exactly where
/// it passes none, and then the parts are within the limits that other calls ask for. Regions are counted without being made. `Memory` comes where there
/// is none for the name.
pub fn first_limit(alloc: Global, parts: &Parts<'_>) -> Result<Option<LimitFault>, Memory>
    requires sound { IsSoundSchema (schema_in parts.now) }
    requires cells { TellsCells (schema_in parts.now) parts.now.cells.now }
    ensures first { IfOk result (IsFirstLimit (schema_in parts.now)) }
    ensures parts { IfOk result (λ found. found ≡ None → AreParts parts.now) }
    ensures few { IfOk result (λ found. found ≡ None → HaveFewRegions (basis_of parts.now)) }
{
    match check_limits(parts) {
        Ok(()) => Ok(None),
        Err(passed) => Ok(Some(passed.told(alloc)?)),
    }
}

// Looks at the limits in their order. Regions can be counted once the limits before theirs are kept.
fn check_limits<'p>(parts: &'p Parts<'_>) -> Result<(), Passed<'p>>
    requires sound { IsSoundSchema (schema_in parts.now) }
    requires cells { TellsCells (schema_in parts.now) parts.now.cells.now }
    ensures first { TellsFirst (limits_passed (basis_of parts.now)) result }
    ensures parts { IfOk result (λ _. AreParts parts.now) }
    ensures few { IfOk result (λ _. HaveFewRegions (basis_of parts.now)) }
{
    check_model(parts.model)?;
    check_store(parts.store)?;
    check_mapping(parts.mapping)?;
    check_constants(parts)?;
    check_regions(parts)
}
