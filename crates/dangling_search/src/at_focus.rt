ghost use Rattle.std.specs.Prelude.{◌≡◌, ◌↔◌, IfOk, IsTrue, Some, find};
ghost use Rattle.std.specs.List.{filter_map, list_any};
ghost use Rattle.std.specs.Option.{option_copied};
ghost use Rattle.cells.specs.Parts.{AreParts};
ghost use Rattle.round_trip.specs.soundness.models.Models.{IsSoundModel};
ghost use Rattle.round_trip.specs.Words.{IsA};
ghost use Rattle.region_states.specs.region_basis.BasisOf.{basis_of};
ghost use Rattle.dangling_keys.specs.Dangling.{IsRowFocus};
ghost use Rattle.dangling_keys.specs.Showing.{MayRefer, fits};
ghost use Rattle.dangling_search.specs.Found.{DanglesHere, OwnFits, TargetHere, fitting_type, is_below, is_below_all};
ghost use Rattle.dangling_search.specs.Lent.{IsLook};

use crate::fitting::{fits, own_member};
use crate::shown::{Look, has_row, may_refer, not_null_for};
use crate::target::{Owned, Target};
use cells::Parts;
use edm_types::{EntityModel, ForeignKey, is_of};
use emc_base::{Memory, Seq, TypeId, put_found};
use forced_entities::{Forced, forced};
use regions::{Focus, Region};
use std::alloc::Global;
use symbolic_rows::{copy_region, pattern};

/// Whether a foreign key dangles at a focus, and whose row is missing: `Some(None)` where nobody has the key that is shown. `Memory` comes where memory ran
/// out.
pub fn at_focus(
    alloc: Global,
    parts: &Parts<'_>,
    key: &ForeignKey,
    target: Option<&Target>,
    of: &Focus,
) -> Result<Option<Option<Region>>, Memory>
    requires parts { AreParts parts.now }
    requires target { TargetHere (basis_of parts.now) key.now (option_copied target) }
    requires of { IsRowFocus (basis_of parts.now) of.now }
    ensures { IfOk result (DanglesHere (basis_of parts.now) of.now key.now) }
{
    let pattern = pattern(alloc, parts, of)?;
    let look = Look {
        of,
        pattern: &pattern,
    };
    if !may_refer(parts, look, key) {
        return Ok(None);
    }
    match target {
        Some(target) => with_target(alloc, parts, look, key, target),
        None => Ok(Some(None)),
    }
}

// The same of a focus that may refer, where a set owns the table.
fn with_target(
    alloc: Global,
    parts: &Parts<'_>,
    look: Look<'_>,
    key: &ForeignKey,
    target: &Target,
) -> Result<Option<Option<Region>>, Memory>
    requires parts { AreParts parts.now }
    requires look { IsLook (basis_of parts.now) look }
    requires target { TargetHere (basis_of parts.now) key.now (Some target.now) }
    requires of { IsRowFocus (basis_of parts.now) look.of.now }
    requires refers { MayRefer (basis_of parts.now) look.of.now key.now }
    ensures { IfOk result (DanglesHere (basis_of parts.now) look.entry.of.now key.now) }
{
    if let Some(region) = own_fitting(alloc, parts, look, key, &target.owned)? {
        if has_row(look.pattern, key.to) {
            return Ok(None);
        }
        return Ok(Some(Some(copy_region(region)?)));
    }
    let not_null = not_null_for(alloc, parts, look, key)?;
    let list = forced(alloc, parts, look.of, not_null.as_slice())?;
    if !some_fits(parts, look, key, &target.owned, list.as_slice()) {
        return Ok(Some(None));
    }
    match lacking_in(alloc, parts, look, key, target, list.as_slice())? {
        Some(region) => Ok(Some(Some(copy_region(region)?))),
        None => Ok(None),
    }
}

// The focus's region, where the focus itself has the key that is shown.
fn own_fitting<'a>(
    alloc: Global,
    parts: &Parts<'_>,
    look: Look<'a>,
    key: &ForeignKey,
    owned: &Owned,
) -> Result<Option<&'a Region>, Memory>
    requires { IsLook (basis_of parts.now) look }
    ensures { IfOk result (λ found. OwnFits (basis_of parts.now) look.entry.of.now key.now owned.now (option_copied found)) }
{
    let Focus::Entity(region) = look.of else {
        return Ok(None);
    };
    let own = own_member(alloc, parts, region)?;
    if fits(parts, look, key, owned, &own) {
        Ok(Some(region))
    } else {
        Ok(None)
    }
}

// Whether one of these has the key that is shown.
fn some_fits(
    parts: &Parts<'_>,
    look: Look<'_>,
    key: &ForeignKey,
    owned: &Owned,
    list: &[Forced],
) -> bool
    requires { IsLook (basis_of parts.now) look }
    ensures { result ≡ list_any (fits (basis_of parts.now) look.entry.of.now key.now owned.now.set owned.now.pairing) list.now }
{
    list.iter().any(|one| fits(parts, look, key, owned, one))
}

// A region without a row, under the types of all of these that have the key that is shown.
fn lacking_in<'a>(
    alloc: Global,
    parts: &Parts<'_>,
    look: Look<'_>,
    key: &ForeignKey,
    target: &'a Target,
    list: &[Forced],
) -> Result<Option<&'a Region>, Memory>
    requires parts { AreParts parts.now }
    requires look { IsLook (basis_of parts.now) look }
    ensures { IfOk result (λ found. option_copied found ≡ find (is_below_all (basis_of parts.now) look.entry.of.now key.now target.now.owned list.now) target.now.lacking) }
{
    let types = fitting_types(alloc, parts, look, key, &target.owned, list)?;
    Ok(first_below(parts, target.lacking.as_slice(), types.as_slice()))
}

// The types of all of these that have the key that is shown.
fn fitting_types(
    alloc: Global,
    parts: &Parts<'_>,
    look: Look<'_>,
    key: &ForeignKey,
    owned: &Owned,
    list: &[Forced],
) -> Result<Seq<TypeId>, Memory>
    requires { IsLook (basis_of parts.now) look }
    ensures { IfOk result (λ types. types ≡ filter_map (fitting_type (basis_of parts.now) look.entry.of.now key.now owned.now) list.now) }
{
    let mut types = Seq::empty(alloc);
    for one in list {
        put_found(&mut types, fitting_type(parts, look, key, owned, one))?;
    }
    Ok(types)
}

// Its type, where it has the key.
fn fitting_type(
    parts: &Parts<'_>,
    look: Look<'_>,
    key: &ForeignKey,
    owned: &Owned,
    one: &Forced,
) -> Option<TypeId>
    requires { IsLook (basis_of parts.now) look }
    ensures { result ≡ fitting_type (basis_of parts.now) look.entry.of.now key.now owned.now one.now }
{
    if fits(parts, look, key, owned, one) {
        Some(one.ty)
    } else {
        None
    }
}

// The first of some regions whose type is under all of these.
fn first_below<'a>(parts: &Parts<'_>, regions: &'a [Region], types: &[TypeId]) -> Option<&'a Region>
    requires { AreParts parts.now }
    ensures { option_copied result ≡ find (is_below (basis_of parts.now) types.now) regions.now }
{
    regions.iter().find(|region| is_below(parts, types, region))
}

// Whether the region's type is so.
fn is_below(parts: &Parts<'_>, types: &[TypeId], region: &Region) -> bool
    requires { AreParts parts.now }
    ensures { result ≡ is_below (basis_of parts.now) types.now region.now }
{
    types.iter().all(|t| is_under(parts, region.ty, *t))
}

// Whether a type is another or derived from it.
fn is_under(parts: &Parts<'_>, t: TypeId, u: TypeId) -> bool
    requires { AreParts parts.now }
    ensures { result ≡ (basis_of parts.now).is_a t u }
{
    derives(parts.model, t, u)
}

// The same, of a sound model.
fn derives(model: &EntityModel, t: TypeId, u: TypeId) -> bool
    requires { IsSoundModel model.now }
    ensures { IsTrue result ↔ IsA model.now t u }
{
    is_of(model, t, u)
}
