ghost use Rattle.std.specs.Prelude.{◌≡◌, ◌≢◌, ◌↔◌, IfOk, IsSome, None, Some};
ghost use Rattle.cells.specs.Parts.{AreParts, schema_in};
ghost use Rattle.round_trip.specs.declared.FailKind.TheVariants as fails;
ghost use Rattle.regions.specs.Regions.{regions_of};
ghost use Rattle.regions.specs.declared.pattern.Focus.TheVariants as focus;
ghost use Rattle.region_states.specs.region_basis.BasisOf.{basis_of};
ghost use Rattle.region_states.specs.conflicts.Conflicts.{IsConflictAt};
ghost use Rattle.region_states.specs.conflicts.There.{FailsThere, NoneFailsBefore};
ghost use Rattle.region_states.specs.declared.conflicts.conflict.Conflict.{Conflict};
ghost use Rattle.failure_laws.specs.Facts.{IsSo};
ghost use Rattle.containment.specs.Found.{FindsOne};

use crate::clashes::clash_at;
use crate::disagreements::disagreement_at;
use crate::lent::FocusRef;
use crate::nulls::null_at;
use crate::same_conflicts::first_same;
use cells::Parts;
use emc_base::{Memory, Seq, SetId};
use region_states::Conflict;
use regions::Region;
use round_trip::FailKind;
use std::alloc::Global;
use symbolic_rows::region_pattern;

/// A conflict of this kind at the regions of a set, which are to be all of them, in their order; `None` exactly where there is none. Where no legal state
/// fails by a kind that is told before this one, that is exactly where no legal state fails by it at the set, and what a conflict tells is so in the words of
/// the values that its regions allow. Keys that dangle aren't told set by set, so that kind isn't asked for. Which conflict it is, where there are several,
/// no clause says. `Memory` comes where memory ran out.
pub fn first_conflict(
    alloc: Global,
    parts: &Parts<'_>,
    kind: FailKind,
    set: SetId,
    regions: &Seq<Region>,
) -> Result<Option<Conflict>, Memory>
    requires parts { AreParts parts.now }
    requires kind { kind ≢ fails.Dangling }
    requires regions { regions.now ≡ regions_of (basis_of parts.now) set }
    ensures told { IfOk result (λ found. (conflict : Conflict) → found ≡ Some conflict → IsConflictAt (basis_of parts.now) set kind conflict) }
    ensures free { IfOk result (λ found. found ≡ None → (conflict : Conflict) → ¬ IsConflictAt (basis_of parts.now) set kind conflict) }
    ensures exact { NoneFailsBefore (schema_in parts.now) kind
        → IfOk result (λ found. IsSome found ↔ FailsThere (basis_of parts.now) set kind) }
    ensures so { NoneFailsBefore (schema_in parts.now) kind
        → IfOk result (λ found. (conflict : Conflict) → found ≡ Some conflict → IsSo (basis_of parts.now) conflict) }
{
    conflict_of(alloc, parts, kind, set, regions)
}

// The same by what is looked at: each region by itself, or all of them together.
fn conflict_of(
    alloc: Global,
    parts: &Parts<'_>,
    kind: FailKind,
    set: SetId,
    regions: &Seq<Region>,
) -> Result<Option<Conflict>, Memory>
    requires parts { AreParts parts.now }
    requires kind { kind ≢ fails.Dangling }
    requires regions { regions.now ≡ regions_of (basis_of parts.now) set }
    ensures told { IfOk result (λ found. (conflict : Conflict) → found ≡ Some conflict → IsConflictAt (basis_of parts.now) set kind conflict) }
    ensures free { IfOk result (λ found. found ≡ None → (conflict : Conflict) → ¬ IsConflictAt (basis_of parts.now) set kind conflict) }
{
    match kind {
        FailKind::Same => first_same(alloc, parts, set, regions),
        _ => first_in(alloc, parts, kind, set, regions),
    }
}

// A conflict at one of the regions.
fn first_in(
    alloc: Global,
    parts: &Parts<'_>,
    kind: FailKind,
    set: SetId,
    regions: &Seq<Region>,
) -> Result<Option<Conflict>, Memory>
    requires parts { AreParts parts.now }
    requires alone { kind ≢ fails.Same }
    requires kind { kind ≢ fails.Dangling }
    requires regions { regions.now ≡ regions_of (basis_of parts.now) set }
    ensures told { IfOk result (λ found. (conflict : Conflict) → found ≡ Some conflict → IsConflictAt (basis_of parts.now) set kind conflict) }
    ensures free { IfOk result (λ found. found ≡ None → (conflict : Conflict) → ¬ IsConflictAt (basis_of parts.now) set kind conflict) }
{
    for region in regions.as_slice() {
        if let Some(conflict) = conflict_at(alloc, parts, kind, region)? {
            return Ok(Some(conflict));
        }
    }
    Ok(None)
}

// A conflict of this kind at a region.
fn conflict_at(
    alloc: Global,
    parts: &Parts<'_>,
    kind: FailKind,
    region: &Region,
) -> Result<Option<Conflict>, Memory>
    requires parts { AreParts parts.now }
    requires alone { kind ≢ fails.Same }
    requires kind { kind ≢ fails.Dangling }
    ensures { IfOk result (FindsOne (basis_of parts.now) (focus.Entity region.now) kind) }
{
    let pattern = region_pattern(alloc, parts, region)?;
    match kind {
        FailKind::Clash => clash_at(alloc, parts, FocusRef::Entity(region), &pattern),
        FailKind::Null => null_at(alloc, parts, FocusRef::Entity(region), &pattern),
        FailKind::Disagrees => disagreement_at(alloc, parts, region, &pattern),
        FailKind::Dangling | FailKind::Same => unreachable!(),
    }
}
