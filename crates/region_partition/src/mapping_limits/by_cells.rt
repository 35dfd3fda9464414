ghost use Rattle.std.specs.Prelude.{◌≡◌, ◌<◌, flat_map, length};
ghost use Rattle.std.specs.List.{enumerate_from};
ghost use Rattle.round_trip.specs.soundness.mappings.Joined.{prop};
ghost use Rattle.cells.specs.Cells.{TellsCells};
ghost use Rattle.cells.specs.Parts.{AreParts, schema_in};
ghost use Rattle.region_states.specs.region_basis.BasisOf.{basis_of};
ghost use Rattle.region_partition.specs.mapping_limits.Checked.{TellsFirst};
ghost use Rattle.region_partition.specs.mapping_limits.FirstLimit.{constants_passed, regions_passed};

use crate::mapping_limits::passed::{Passed, at_most};
use crate::region_lists::count;
use cells::Parts;
use edm_types::{EntitySet, LimitKind, Prop};
use emc_base::{PropId, SetId};

// The most constants of a group that holds a property.
const MOST_CONSTANTS: u64 = 64;

// The most regions of a set.
const MOST_REGIONS: u64 = 1_024;

// Looks at the limit on constants, property by property.
pub(super) fn check_constants<'p>(parts: &'p Parts<'_>) -> Result<(), Passed<'p>>
    requires { TellsCells (schema_in parts.now) parts.now.cells.now }
    ensures { TellsFirst (flat_map (constants_passed (basis_of parts.now)) (enumerate_from 0 parts.now.model.now.props)) result }
{
    for (index, declared) in parts.model.props.as_slice().iter().enumerate() {
        let id = PropId {
            index: index as u32,
        };
        check_group(parts, id, declared)?;
    }
    Ok(())
}

// The same at the group of one property.
fn check_group<'n>(parts: &Parts<'_>, id: PropId, declared: &'n Prop) -> Result<(), Passed<'n>>
    requires told { TellsCells (schema_in parts.now) parts.now.cells.now }
    requires within { id.index < length parts.now.model.now.props }
    ensures { TellsFirst (constants_passed (basis_of parts.now) (id.index, declared.now)) result }
{
    let counted = count_constants(parts, id);
    at_most(
        LimitKind::Constants,
        declared.name.as_str(),
        counted,
        MOST_CONSTANTS,
    )
}

// How many constants the group of a property has.
fn count_constants(parts: &Parts<'_>, property: PropId) -> u64
    requires told { TellsCells (schema_in parts.now) parts.now.cells.now }
    requires within { property.index < length parts.now.model.now.props }
    ensures { result ≡ length ((basis_of parts.now).constants (prop property)) }
{
    let group = parts.cells.group_of_prop(property);
    parts.cells.constants(group).len() as u64
}

// Looks at the limit on regions, set by set.
pub(super) fn check_regions<'p>(parts: &'p Parts<'_>) -> Result<(), Passed<'p>>
    requires { AreParts parts.now }
    ensures { TellsFirst (flat_map (regions_passed (basis_of parts.now)) (enumerate_from 0 parts.now.model.now.sets)) result }
{
    for (index, set) in parts.model.sets.as_slice().iter().enumerate() {
        let id = SetId {
            index: index as u32,
        };
        check_set(parts, id, set)?;
    }
    Ok(())
}

// The same at one set.
fn check_set<'n>(parts: &Parts<'_>, id: SetId, set: &'n EntitySet) -> Result<(), Passed<'n>>
    requires { AreParts parts.now }
    ensures { TellsFirst (regions_passed (basis_of parts.now) (id.index, set.now)) result }
{
    let counted = count(parts, id);
    at_most(LimitKind::Regions, set.name.as_str(), counted, MOST_REGIONS)
}
