ghost use Rattle.std.specs.Prelude.{◌≡◌, ◌<◌, ℕ, All, AllPairs, Contains, IfNone, IfOk, IfSome, IsTrue, false, length, map};
ghost use Rattle.cells.specs.Parts.{AreParts};
ghost use Rattle.regions.specs.declared.region.Region.{Region};
ghost use Rattle.region_states.specs.region_basis.BasisOf.{basis_of};
ghost use Rattle.region_states.specs.conflicts.SameFacts.{are_rivals};
ghost use Rattle.containment.specs.same_conflicts.Matching.{rows_alike};
ghost use Rattle.emc_base.specs.Lists.{At};
ghost use Rattle.containment.specs.same_conflicts.Rivals.{AreGrouped, AreRegionsOfOne, AreTwoOf, DifferAt};
ghost use Rattle.containment.specs.declared.same_conflicts.written.Written.{Written};
ghost use Rattle.containment.specs.same_conflicts.Written.{IsWritten, region_in};

use crate::same_conflicts::forms::{Form, form_of};
use crate::same_conflicts::matching::rows_alike;
use crate::same_conflicts::written::Written;
use cells::Parts;
use emc_base::Memory;
use groupings::group;
use regions::Region;
use std::alloc::Global;
use std::collections::BTreeMap;

/// Two regions whose entities can write the same rows.
#[derive(Drop)]
pub struct Rivals<'r> {
    pub one: &'r Region,
    pub two: &'r Region,
}

/// Two of these regions of a set whose entities can write the same rows, with the same links. Only regions of one form are compared.
/// `Memory` comes where memory ran out.
pub fn first_rivals<'r>(
    alloc: Global,
    parts: &Parts<'_>,
    written: &[Written<'r>],
) -> Result<Option<Rivals<'r>>, Memory>
    requires parts { AreParts parts.now }
    requires written { AreRegionsOfOne (basis_of parts.now) written.now }
    ensures found { IfOk result (λ found. IfSome found (λ rivals. Contains (map region_in written.now) rivals.one.now × Contains (map region_in written.now) rivals.two.now
        × IsTrue (are_rivals (basis_of parts.now) rivals.one.now rivals.two.now))) }
    ensures none { IfOk result (λ found. IfNone found ((one two : Region) → Contains (map region_in written.now) one → Contains (map region_in written.now) two
        → are_rivals (basis_of parts.now) one two ≡ false)) }
{
    let groups = by_form(alloc, parts, written)?;
    for alike in groups.values() {
        if let Some(rivals) = rivals_among(parts, written, alike.as_slice()) {
            return Ok(Some(rivals));
        }
    }
    Ok(None)
}

// The places of the regions of each form, in their order.
fn by_form(
    alloc: Global,
    parts: &Parts<'_>,
    written: &[Written<'_>],
) -> Result<BTreeMap<Form, Vec<usize>>, Memory>
    requires parts { AreParts parts.now }
    requires written { All (IsWritten (basis_of parts.now)) written.now }
    ensures { IfOk result (AreGrouped (basis_of parts.now) written.now) }
{
    let mut formed = Vec::new(alloc);
    for (place, one) in written.iter().enumerate() {
        formed.push((form_of(alloc, parts, one)?, place))?;
    }
    group(alloc, formed)
}

// The regions at two of these places whose rows can hold the same.
fn rivals_among<'r>(
    parts: &Parts<'_>,
    written: &[Written<'r>],
    alike: &[usize],
) -> Option<Rivals<'r>>
    requires { All (λ place. place < length written.now) alike.now }
    ensures found { IfSome result (AreTwoOf (basis_of parts.now) written.now alike.now) }
    ensures none { IfNone result (AllPairs (DifferAt (basis_of parts.now) written.now) alike.now) }
{
    for (later, place) in alike.iter().enumerate() {
        let two = &written[*place];
        if let Some(one) = rival_of(parts, written, &alike[..later], two) {
            return Some(Rivals {
                one: one.region,
                two: two.region,
            });
        }
    }
    None
}

// The region at the first of these places whose rows can hold the same as those of another.
fn rival_of<'w, 'r>(
    parts: &Parts<'_>,
    written: &'w [Written<'r>],
    places: &[usize],
    two: &Written<'_>,
) -> Option<&'w Written<'r>>
    requires { All (λ place. place < length written.now) places.now }
    ensures found { IfSome result (λ one. (i : ℕ) × (p : ℕ) × At places.now i p × At written.now p one.now × IsTrue (rows_alike (basis_of parts.now) one.now two.now)) }
    ensures none { IfNone result (All (λ p. (one : Written) → At written.now p one → rows_alike (basis_of parts.now) one two.now ≡ false) places.now) }
{
    for place in places {
        let one = &written[*place];
        if rows_alike(parts, one, two) {
            return Some(one);
        }
    }
    None
}
