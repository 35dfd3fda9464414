ghost use Rattle.std.specs.Prelude.{◌≡◌, IfOk, None, Some};
ghost use Rattle.cells.specs.Parts.{AreParts};
ghost use Rattle.round_trip.specs.declared.FailKind.TheVariants as kind;
ghost use Rattle.round_trip.specs.Words.{SetId};
ghost use Rattle.regions.specs.Regions.{regions_of};
ghost use Rattle.region_states.specs.region_basis.BasisOf.{basis_of};
ghost use Rattle.region_states.specs.conflicts.Conflicts.{IsConflictAt};
ghost use Rattle.region_states.specs.declared.conflicts.conflict.Conflict.{Conflict};
ghost use Rattle.region_states.specs.declared.conflicts.conflict.Conflict.TheVariants as conflict;
ghost use Rattle.containment.specs.same_conflicts.Rivals.{AreRegionsOfOne};
ghost use Rattle.containment.specs.same_conflicts.Written.{AreWritten};

use crate::same_conflicts::absent::first_absent;
use crate::same_conflicts::lost::first_lost;
use crate::same_conflicts::rivals::{Rivals, first_rivals};
use crate::same_conflicts::written::{Written, written_by};
use cells::Parts;
use emc_base::{Memory, Seq, SetId};
use region_states::Conflict;
use regions::Region;
use std::alloc::Global;
use symbolic_rows::copy_region;

/// A conflict of the kind `Same` at the regions of a set, which are to be all of them, in their order; `None` exactly where there is none. Which one it is,
/// where there are several, no clause says. Regions are compared with each other where their rows hold the same for certain. `Memory` comes where memory
/// ran out.
pub fn first_same(
    alloc: Global,
    parts: &Parts<'_>,
    set: SetId,
    regions: &Seq<Region>,
) -> Result<Option<Conflict>, Memory>
    requires parts { AreParts parts.now }
    requires regions { regions.now ≡ regions_of (basis_of parts.now) set }
    ensures told { IfOk result (λ found. (conflict : Conflict) → found ≡ Some conflict → IsConflictAt (basis_of parts.now) set kind.Same conflict) }
    ensures free { IfOk result (λ found. found ≡ None → (conflict : Conflict) → ¬ IsConflictAt (basis_of parts.now) set kind.Same conflict) }
{
    let written = written_by(alloc, parts, regions.as_slice())?;
    let found = same_among(alloc, parts, written.as_slice());
    drop(written);
    found
}

// A conflict of the kind `Same` at these regions, which are all of some set; `None` where there is none.
fn same_among(
    alloc: Global,
    parts: &Parts<'_>,
    written: &[Written<'_>],
) -> Result<Option<Conflict>, Memory>
    requires parts { AreParts parts.now }
    requires written { AreRegionsOfOne (basis_of parts.now) written.now }
    ensures told { IfOk result (λ found. (s : SetId) → AreWritten (basis_of parts.now) (regions_of (basis_of parts.now) s) written.now
        → (conflict : Conflict) → found ≡ Some conflict → IsConflictAt (basis_of parts.now) s kind.Same conflict) }
    ensures free { IfOk result (λ found. (s : SetId) → AreWritten (basis_of parts.now) (regions_of (basis_of parts.now) s) written.now
        → found ≡ None → (conflict : Conflict) → ¬ IsConflictAt (basis_of parts.now) s kind.Same conflict) }
{
    if let Some(one) = first_absent(written) {
        return Ok(Some(Conflict::Absent(copy_region(one.region)?)));
    }
    if let Some(lost) = first_lost(parts, written) {
        return Ok(Some(Conflict::Lost {
            region: copy_region(lost.region)?,
            prop: lost.prop,
        }));
    }
    match first_rivals(alloc, parts, written)? {
        Some(rivals) => Ok(Some(rival(&rivals)?)),
        None => Ok(None),
    }
}

// Rivals as a conflict.
fn rival(rivals: &Rivals<'_>) -> Result<Conflict, Memory>
    ensures { IfOk result (λ made. made ≡ conflict.Rival rivals.now.one.now rivals.now.two.now) }
{
    Ok(Conflict::Rival {
        one: copy_region(rivals.one)?,
        two: copy_region(rivals.two)?,
    })
}
