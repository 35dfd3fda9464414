ghost use Rattle.std.specs.Prelude.{◌≡◌, ◌≢◌, IfOk, None, Some};
ghost use Rattle.cells.specs.Parts.{AreParts, schema_in};
ghost use Rattle.region_states.specs.conflicts.Conflicts.{IsConflictAt, IsLinkConflictAt};
ghost use Rattle.region_states.specs.conflicts.There.{FailsThere, LinksFailThere, NoneFailsBefore, NoneFailsBy};
ghost use Rattle.region_states.specs.declared.conflicts.conflict.Conflict.{Conflict};
ghost use Rattle.region_states.specs.region_basis.BasisOf.{basis_of};
ghost use Rattle.failure_laws.specs.Facts.{IsSo};
ghost use Rattle.round_trip.specs.Words.{Assoc, AssocId, At, EntitySet, Keeps, RoundTrips, SetId};
ghost use Rattle.round_trip.specs.declared.FailKind.TheVariants as fails;
ghost use Rattle.witness_state.specs.Failures.{IsFailureOf};
ghost use Rattle.witness_state.specs.declared.failure.Failure.{Failure};
ghost use Rattle.region_partition.specs.set_regions.Regions.{AreRegions};
ghost use Rattle.mapping_core.specs.mapping_verdict.Conflicts.{IsSomeConflict};

use cells::Parts;
use containment::{first_conflict, first_link_conflict};
use dangling_search::first_dangling;
use dangling_states::dangling_failure;
use emc_base::{AssocId, Memory, Seq, SetId};
use failure_laws::a_mapping_round_trips_place_by_place;
use region_states::{Conflict, parts_are_a_basis};
use regions::Region;
use round_trip::FailKind;
use schema_laws::every_state_is_kept;
use std::alloc::Global;
use witness_state::{Failure, build};

/// A legal state that fails, by the first kind by which any does; `None` exactly where none fails, and then each legal state is kept: it has tables of its
/// own, which are legal and agree with each fragment. The regions are to be those of all sets. Within one kind sets are looked at before associations.
/// `Memory` comes where memory ran out.
pub fn first_failure(
    alloc: Global,
    parts: &Parts<'_>,
    regions: &Seq<Seq<Region>>,
) -> Result<Option<Failure>, Memory>
    requires parts { AreParts parts.now }
    requires regions { AreRegions (basis_of parts.now) regions.now }
    ensures fails { IfOk result (λ found. (failure : Failure) → found ≡ Some failure → IsFailureOf (schema_in parts.now) failure) }
    ensures round_trips { IfOk result (λ found. found ≡ None → RoundTrips (schema_in parts.now)) }
    ensures keeps { IfOk result (λ found. found ≡ None → Keeps (schema_in parts.now)) }
{
    parts_are_a_basis();
    a_mapping_round_trips_place_by_place();
    every_state_is_kept();
    if let Some(failure) = failure_by(alloc, parts, FailKind::Clash, regions)? {
        return Ok(Some(failure));
    }
    if let Some(failure) = failure_by(alloc, parts, FailKind::Null, regions)? {
        return Ok(Some(failure));
    }
    if let Some(failure) = failure_by(alloc, parts, FailKind::Disagrees, regions)? {
        return Ok(Some(failure));
    }
    if let Some(failure) = dangling_by(alloc, parts, regions)? {
        return Ok(Some(failure));
    }
    failure_by(alloc, parts, FailKind::Same, regions)
}

// A legal state that fails by a foreign key that dangles; `None` exactly where none does.
fn dangling_by(
    alloc: Global,
    parts: &Parts<'_>,
    regions: &Seq<Seq<Region>>,
) -> Result<Option<Failure>, Memory>
    requires parts { AreParts parts.now }
    requires earlier { NoneFailsBefore (schema_in parts.now) fails.Dangling }
    requires regions { AreRegions (basis_of parts.now) regions.now }
    ensures fails { IfOk result (λ found. (failure : Failure) → found ≡ Some failure → IsFailureOf (schema_in parts.now) failure) }
    ensures none { IfOk result (λ found. found ≡ None → NoneFailsBy (schema_in parts.now) fails.Dangling) }
{
    match first_dangling(alloc, parts, regions)? {
        Some(told) => Ok(Some(dangling_failure(alloc, parts, &told)?)),
        None => Ok(None),
    }
}

// A legal state that fails by this kind; `None` exactly where none does.
fn failure_by(
    alloc: Global,
    parts: &Parts<'_>,
    kind: FailKind,
    regions: &Seq<Seq<Region>>,
) -> Result<Option<Failure>, Memory>
    requires parts { AreParts parts.now }
    requires kind { kind ≢ fails.Dangling }
    requires earlier { NoneFailsBefore (schema_in parts.now) kind }
    requires regions { AreRegions (basis_of parts.now) regions.now }
    ensures fails { IfOk result (λ found. (failure : Failure) → found ≡ Some failure → IsFailureOf (schema_in parts.now) failure) }
    ensures none { IfOk result (λ found. found ≡ None → NoneFailsBy (schema_in parts.now) kind) }
{
    parts_are_a_basis();
    a_mapping_round_trips_place_by_place();
    match conflict_by(alloc, parts, kind, regions)? {
        Some(conflict) => Ok(Some(build(alloc, parts, &conflict)?)),
        None => Ok(None),
    }
}

// A conflict of this kind at the first set that has one, else at the links of the first association that have one; `None` exactly where no legal state fails by
// it at a set or at links.
fn conflict_by(
    alloc: Global,
    parts: &Parts<'_>,
    kind: FailKind,
    regions: &Seq<Seq<Region>>,
) -> Result<Option<Conflict>, Memory>
    requires parts { AreParts parts.now }
    requires kind { kind ≢ fails.Dangling }
    requires earlier { NoneFailsBefore (schema_in parts.now) kind }
    requires regions { AreRegions (basis_of parts.now) regions.now }
    ensures told { IfOk result (λ found. (conflict : Conflict) → found ≡ Some conflict → IsSomeConflict (basis_of parts.now) kind conflict) }
    ensures none { IfOk result (λ found. found ≡ None → (s : SetId) (set : EntitySet) → At (schema_in parts.now).model.sets s.index set → ¬ FailsThere (basis_of parts.now) s kind) }
    ensures no_links { IfOk result (λ found. found ≡ None → (a : AssocId) (assoc : Assoc) → At (schema_in parts.now).model.assocs a.index assoc
        → ¬ LinksFailThere (basis_of parts.now) a kind) }
{
    if let Some(conflict) = conflict_of_sets(alloc, parts, kind, regions)? {
        return Ok(Some(conflict));
    }
    conflict_of_links(alloc, parts, kind)
}

// A conflict of this kind at the first set that has one.
fn conflict_of_sets(
    alloc: Global,
    parts: &Parts<'_>,
    kind: FailKind,
    regions: &Seq<Seq<Region>>,
) -> Result<Option<Conflict>, Memory>
    requires parts { AreParts parts.now }
    requires kind { kind ≢ fails.Dangling }
    requires earlier { NoneFailsBefore (schema_in parts.now) kind }
    requires regions { AreRegions (basis_of parts.now) regions.now }
    ensures told { IfOk result (λ found. (conflict : Conflict) → found ≡ Some conflict → (s : SetId) × IsConflictAt (basis_of parts.now) s kind conflict × IsSo (basis_of parts.now) conflict) }
    ensures none { IfOk result (λ found. found ≡ None → (s : SetId) (set : EntitySet) → At (schema_in parts.now).model.sets s.index set → ¬ FailsThere (basis_of parts.now) s kind) }
{
    for (index, of_set) in regions.as_slice().iter().enumerate() {
        let set = SetId {
            index: index as u32,
        };
        if let Some(conflict) = first_conflict(alloc, parts, kind, set, of_set)? {
            return Ok(Some(conflict));
        }
    }
    Ok(None)
}

// A conflict of this kind at the links of the first association that have one.
fn conflict_of_links(
    alloc: Global,
    parts: &Parts<'_>,
    kind: FailKind,
) -> Result<Option<Conflict>, Memory>
    requires parts { AreParts parts.now }
    requires kind { kind ≢ fails.Dangling }
    requires earlier { NoneFailsBefore (schema_in parts.now) kind }
    ensures told { IfOk result (λ found. (conflict : Conflict) → found ≡ Some conflict → (a : AssocId) × IsLinkConflictAt (basis_of parts.now) a kind conflict × IsSo (basis_of parts.now) conflict) }
    ensures none { IfOk result (λ found. found ≡ None → (a : AssocId) (assoc : Assoc) → At (schema_in parts.now).model.assocs a.index assoc
        → ¬ LinksFailThere (basis_of parts.now) a kind) }
{
    for index in 0..parts.model.assocs.len() {
        let assoc = AssocId {
            index: index as u32,
        };
        if let Some(conflict) = first_link_conflict(alloc, parts, kind, assoc)? {
            return Ok(Some(conflict));
        }
    }
    Ok(None)
}
