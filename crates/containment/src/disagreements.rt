ghost use Rattle.std.specs.Prelude.{◌≡◌, IfNone, IfOk, IfSome, IsTrue, List, false, find, ℕ};
ghost use Rattle.std.specs.Option.{option_copied};
ghost use Rattle.round_trip.specs.declared.FailKind.TheVariants as kind;
ghost use Rattle.cells.specs.Parts.{AreParts};
ghost use Rattle.regions.specs.Patterns.{pattern_of};
ghost use Rattle.regions.specs.declared.pattern.Focus.TheVariants as focus;
ghost use Rattle.region_states.specs.region_basis.BasisOf.{basis_of};
ghost use Rattle.region_states.specs.conflicts.Facts.{differs_at, differs_at_links, disagrees_at, is_hosted, shows_link_pattern, shows_pattern};
ghost use Rattle.containment.specs.Found.{FindsOne};
ghost use Rattle.containment.specs.Lent.{focus_in};

use crate::lent::{FocusRef, atoms_of};
use crate::shown::{shows_link_row, shows_row};
use cells::Parts;
use edm_types::{Fragment, LinkFragment};
use emc_base::{AssocId, Memory, Txt};
use region_states::{Conflict, hosting_end};
use regions::{Pattern, Region};
use std::alloc::Global;
use symbolic_rows::{focus_on, is_linked, writes};

/// A fragment that disagrees with a region of this pattern. `Memory` comes where there is none to tell it.
pub fn disagreement_at(
    alloc: Global,
    parts: &Parts<'_>,
    region: &Region,
    pattern: &Pattern,
) -> Result<Option<Conflict>, Memory>
    requires parts { AreParts parts.now }
    requires pattern { pattern.now ≡ pattern_of (basis_of parts.now) (focus.Entity region.now) }
    ensures { IfOk result (FindsOne (basis_of parts.now) (focus.Entity region.now) kind.Disagrees) }
{
    match place_of(parts, region, pattern) {
        Some(place) => Ok(Some(Conflict::Disagree {
            focus: focus_on(region)?,
            place: place.copy(alloc)?,
        })),
        None => Ok(None),
    }
}

// The place of a fragment that disagrees with the region.
fn place_of<'m>(parts: &Parts<'m>, region: &Region, pattern: &Pattern) -> Option<&'m Txt>
    requires parts { AreParts parts.now }
    requires pattern { pattern.now ≡ pattern_of (basis_of parts.now) (focus.Entity region.now) }
    ensures found { IfSome result (λ place. IsTrue (disagrees_at (basis_of parts.now) (focus.Entity region.now) place.now)) }
    ensures none { IfNone result ((place : List ℕ) → disagrees_at (basis_of parts.now) (focus.Entity region.now) place ≡ false) }
{
    if let Some(fragment) = differing(parts, region, pattern) {
        return Some(&fragment.place);
    }
    let fragment = differing_link(parts, region, pattern)?;
    Some(&fragment.place)
}

// A fragment of entities that disagrees with the region.
fn differing<'m>(parts: &Parts<'m>, region: &Region, pattern: &Pattern) -> Option<&'m Fragment>
    requires parts { AreParts parts.now }
    requires pattern { pattern.now ≡ pattern_of (basis_of parts.now) (focus.Entity region.now) }
    ensures { option_copied result ≡ find (differs_at (basis_of parts.now) region.now) parts.now.mapping.now.fragments }
{
    parts
        .mapping
        .fragments
        .as_slice()
        .iter()
        .find(|fragment| differs(parts, region, pattern, fragment))
}

// A fragment of links that disagrees with the region.
fn differing_link<'m>(
    parts: &Parts<'m>,
    region: &Region,
    pattern: &Pattern,
) -> Option<&'m LinkFragment>
    requires parts { AreParts parts.now }
    requires pattern { pattern.now ≡ pattern_of (basis_of parts.now) (focus.Entity region.now) }
    ensures { option_copied result ≡ find (differs_at_links (basis_of parts.now) region.now) parts.now.mapping.now.links }
{
    parts.mapping.links.as_slice().iter().find(|fragment| differs_at_links(
        parts, region, pattern, fragment,
    ))
}

// Whether a fragment of the region's set selects the region and doesn't show its row, or shows this and doesn't select the region.
fn differs(parts: &Parts<'_>, region: &Region, pattern: &Pattern, fragment: &Fragment) -> bool
    requires parts { AreParts parts.now }
    requires pattern { pattern.now ≡ pattern_of (basis_of parts.now) (focus.Entity region.now) }
    ensures { result ≡ differs_at (basis_of parts.now) region.now fragment.now }
{
    fragment.set.index == region.set.index
        && writes(parts, region, fragment) != shows(parts, region, pattern, fragment)
}

// Whether a fragment shows a row of the region.
fn shows(parts: &Parts<'_>, region: &Region, pattern: &Pattern, fragment: &Fragment) -> bool
    requires { pattern.now ≡ pattern_of (basis_of parts.now) (focus.Entity region.now) }
    ensures { result ≡ shows_pattern (basis_of parts.now) (focus.Entity region.now) fragment.now }
{
    pattern.rows.as_slice().iter().any(|row| {
        row.table.index == fragment.table.index
            && shows_row(parts.model, region.atoms.as_slice(), fragment, row)
    })
}

// Of a fragment whose links are hosted at the region's set, whether a link is there and it doesn't show the row, or it shows this and no link is there.
fn differs_at_links(
    parts: &Parts<'_>,
    region: &Region,
    pattern: &Pattern,
    fragment: &LinkFragment,
) -> bool
    requires parts { AreParts parts.now }
    requires pattern { pattern.now ≡ pattern_of (basis_of parts.now) (focus.Entity region.now) }
    ensures { result ≡ differs_at_links (basis_of parts.now) region.now fragment.now }
{
    is_hosted(parts, region, fragment.assoc)
        && is_linked(region, fragment.assoc)
            != shows_link(parts, FocusRef::Entity(region), pattern, fragment)
}

// Whether the links of an association are hosted at the region's set.
fn is_hosted(parts: &Parts<'_>, region: &Region, id: AssocId) -> bool
    requires { AreParts parts.now }
    ensures { result ≡ is_hosted (basis_of parts.now) region.now id }
{
    match parts.model.assocs.get(id.index as usize) {
        Some(assoc) => hosting_end(region.set, assoc, parts.cells.link_place(id)).is_some(),
        None => false,
    }
}

/// Whether a link fragment shows a row of the focus.
pub fn shows_link(
    parts: &Parts<'_>,
    of: FocusRef<'_>,
    pattern: &Pattern,
    fragment: &LinkFragment,
) -> bool
    requires { pattern.now ≡ pattern_of (basis_of parts.now) (focus_in of) }
    ensures { result ≡ shows_link_pattern (basis_of parts.now) (focus_in of.entry) fragment.now }
{
    let atoms = atoms_of(of);
    pattern.rows.as_slice().iter().any(|row| {
        row.table.index == fragment.table.index && shows_link_row(parts.model, atoms, fragment, row)
    })
}
