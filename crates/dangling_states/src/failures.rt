ghost use Rattle.std.specs.Prelude.{◌≡◌, IfOk, List, Some};
ghost use Rattle.std.specs.Option.{option_copied};
ghost use Rattle.dangling_keys.specs.Laws.{IsPairedBy};
ghost use Rattle.cells.specs.Parts.{AreParts, schema_in};
ghost use Rattle.region_states.specs.region_basis.BasisOf.{basis_of};
ghost use Rattle.witness_state.specs.Failures.{IsFailureOf};
ghost use Rattle.dangling_keys.specs.Dangling.{OwnsTable};
ghost use Rattle.dangling_keys.specs.DanglingStates.{dangling_state, has_shown_key};
ghost use Rattle.regions.specs.Patterns.{pattern_of};
ghost use Rattle.round_trip.specs.Words.{At, Pair};
ghost use Rattle.regions.specs.declared.region.Region.{Region};
ghost use Rattle.dangling_states.specs.Referring.{IsDanglingAt, IsFirstDangling, IsReferring, IsShownOfKey};

use crate::both::both_state;
use crate::lone::lone_state;
use crate::outer::outer_row;
use crate::places::row_place;
use crate::referring::Referring;
use cells::Parts;
use dangling_keys::{DanglingKey, dangling_keys_are_decided};
use dangling_search::{Look, Owned, fits, not_null_for, own_member, owned_by};
use edm_types::ForeignKey;
use emc_base::Memory;
use entity_state::EntityState;
use region_states::parts_are_a_basis;
use regions::{Focus, Pattern, Region};
use round_trip::FailKind;
use std::alloc::Global;
use symbolic_rows::pattern;
use witness_state::Failure;

/// A legal state that fails by a foreign key that dangles at a focus, at the place of the focus's row. What is told must be so, and no legal state may fail by a
/// kind that is told before this one. The state is small: it holds the focus, the entity of the region whose row is missing where one is told, what both need,
/// principals and partners included, and nothing else. `Memory` comes where memory ran out.
pub fn dangling_failure(
    alloc: Global,
    parts: &Parts<'_>,
    told: &DanglingKey,
) -> Result<Failure, Memory>
    requires { IsFirstDangling parts.now told.now }
    ensures failure { IfOk result (IsFailureOf (schema_in parts.now)) }
    ensures shown { IfOk result (IsShownOfKey (basis_of parts.now) told.now) }
{
    parts_are_a_basis();
    dangling_keys_are_decided();
    shown_of(alloc, parts, told)
}

// The state that is shown of what is told.
fn shown_of(alloc: Global, parts: &Parts<'_>, told: &DanglingKey) -> Result<Failure, Memory>
    requires { IsFirstDangling parts.now told.now }
    ensures { IfOk result (IsShownOfKey (basis_of parts.now) told.now) }
{
    let key = parts.store.keys.at(told.key.index as usize);
    let pattern = pattern(alloc, parts, &told.focus)?;
    let failure = by_pattern(alloc, parts, told, key, &pattern);
    drop(pattern);
    failure
}

// The same by the key and by the rows of the focus.
fn by_pattern<'a>(
    alloc: Global,
    parts: &Parts<'_>,
    told: &'a DanglingKey,
    key: &'a ForeignKey,
    pattern: &'a Pattern,
) -> Result<Failure, Memory>
    requires told { IsFirstDangling parts.now told.now }
    requires key { At (schema_in parts.now).store.keys told.now.key.index key.now }
    requires pattern { pattern.now ≡ pattern_of (basis_of parts.now) told.now.focus }
    ensures { IfOk result (IsShownOfKey (basis_of parts.now) told.now) }
{
    let look = Look {
        of: &told.focus,
        pattern,
    };
    let row = outer_row(alloc, parts, look, key)?;
    let not_null = not_null_for(alloc, parts, look, key)?;
    let referring = Referring {
        look,
        key,
        row,
        not_null: not_null.as_slice(),
    };
    let place = row_place(alloc, parts, referring)?;
    let state = state_of(alloc, parts, referring, told.principal.as_ref())?;
    Ok(Failure {
        kind: FailKind::Dangling,
        place,
        state,
        other: None,
    })
}

// The state, by whose row is missing.
fn state_of(
    alloc: Global,
    parts: &Parts<'_>,
    referring: Referring<'_>,
    principal: Option<&Region>,
) -> Result<EntityState, Memory>
    requires parts { AreParts parts.now }
    requires referring { IsReferring (basis_of parts.now) referring }
    requires dangles { IsDanglingAt (basis_of parts.now) referring.look.of.now referring.key.now (option_copied principal) }
    ensures { (pairing : List Pair) → IsPairedBy (basis_of parts.now) referring.entry.key.now pairing (option_copied principal.entry)
        → IfOk result (λ state. state ≡ dangling_state (basis_of parts.now) referring.entry.look.of.now referring.entry.key.now pairing (option_copied principal.entry)) }
{
    match principal {
        Some(region) => with_principal(alloc, parts, referring, region),
        None => lone_state(alloc, parts, referring),
    }
}

// The state where the row of an entity of a region is missing: that of the focus alone, where this is the focus itself.
fn with_principal(
    alloc: Global,
    parts: &Parts<'_>,
    referring: Referring<'_>,
    region: &Region,
) -> Result<EntityState, Memory>
    requires parts { AreParts parts.now }
    requires referring { IsReferring (basis_of parts.now) referring }
    requires dangles { IsDanglingAt (basis_of parts.now) referring.look.of.now referring.key.now (Some region.now) }
    ensures { (pairing : List Pair) → OwnsTable (basis_of parts.now) referring.entry.key.now.to region.now.set pairing
        → IfOk result (λ state. state ≡ dangling_state (basis_of parts.now) referring.entry.look.of.now referring.entry.key.now pairing (Some region.now)) }
{
    let Some(owned) = owned_by(alloc, parts, referring.key.to)? else {
        unreachable!()
    };
    if is_own(alloc, parts, referring, &owned)? {
        return lone_state(alloc, parts, referring);
    }
    both_state(alloc, parts, referring, owned.pairing.as_slice(), region)
}

// Whether the focus itself has the key that is shown.
fn is_own(
    alloc: Global,
    parts: &Parts<'_>,
    referring: Referring<'_>,
    owned: &Owned,
) -> Result<bool, Memory>
    requires { IsReferring (basis_of parts.now) referring }
    ensures { (region : Region) → owned.now.set ≡ region.set
        → IfOk result (λ own. own ≡ has_shown_key (basis_of parts.now) referring.entry.look.of.now referring.entry.key.now owned.now.pairing referring.entry.look.of.now region) }
{
    match referring.look.of {
        Focus::Entity(own) => {
            let one = own_member(alloc, parts, own)?;
            Ok(fits(parts, referring.look, referring.key, owned, &one))
        }
        Focus::Link(_) => Ok(false),
    }
}
