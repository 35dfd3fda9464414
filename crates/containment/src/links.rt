ghost use Rattle.std.specs.Prelude.{◌≡◌, ◌≢◌, ◌<◌, ◌↔◌, IfOk, IsSome, None, Some, find, length};
ghost use Rattle.std.specs.Option.{option_copied};
ghost use Rattle.cells.specs.Parts.{AreParts, schema_in};
ghost use Rattle.round_trip.specs.declared.FailKind.TheVariants as fails;
ghost use Rattle.regions.specs.Patterns.{pattern_of};
ghost use Rattle.regions.specs.declared.pattern.Focus.TheVariants as focus;
ghost use Rattle.region_states.specs.region_basis.BasisOf.{basis_of};
ghost use Rattle.region_states.specs.conflicts.Conflicts.{IsLinkConflictAt};
ghost use Rattle.region_states.specs.conflicts.Facts.{hides_link};
ghost use Rattle.region_states.specs.conflicts.There.{LinksFailThere, NoneFailsBefore};
ghost use Rattle.region_states.specs.declared.conflicts.conflict.Conflict.{Conflict};
ghost use Rattle.failure_laws.specs.Facts.{IsSo};
ghost use Rattle.containment.specs.Found.{FindsOne};
ghost use Rattle.containment.specs.Places.{many_found, unmapped_found};

use crate::clashes::clash_at;
use crate::disagreements::shows_link;
use crate::lent::FocusRef;
use crate::nulls::null_at;
use cells::{LinkPlace, Parts};
use edm_types::{LinkFragment, Mult};
use emc_base::{AssocId, Memory};
use failure_laws::link_conflicts_are_exact;
use region_states::{Conflict, partner_end, parts_are_a_basis};
use regions::{Focus, Pattern};
use round_trip::FailKind;
use std::alloc::Global;
use symbolic_rows::link_pattern;

/// A conflict of this kind at the links of an association: at the rows or the fragment of its own table, if it has one; by two partners of one entity, if its
/// links are hosted and the partner's end is `*`; or by links that nothing maps. `None` exactly where there is none. Where no legal state fails by a kind
/// that is told before this one, that is exactly where no legal state fails by it there, and what a conflict tells is so in the words of the keys that its
/// links allow. Keys that dangle aren't told association by association, and that kind isn't asked for. `Memory` comes where memory ran out.
pub fn first_link_conflict(
    alloc: Global,
    parts: &Parts<'_>,
    kind: FailKind,
    assoc: AssocId,
) -> Result<Option<Conflict>, Memory>
    requires parts { AreParts parts.now }
    requires kind { kind ≢ fails.Dangling }
    requires assoc { assoc.index < length (schema_in parts.now).model.assocs }
    ensures told { IfOk result (λ found. (conflict : Conflict) → found ≡ Some conflict → IsLinkConflictAt (basis_of parts.now) assoc kind conflict) }
    ensures free { IfOk result (λ found. found ≡ None → (conflict : Conflict) → ¬ IsLinkConflictAt (basis_of parts.now) assoc kind conflict) }
    ensures exact { NoneFailsBefore (schema_in parts.now) kind
        → IfOk result (λ found. IsSome found ↔ LinksFailThere (basis_of parts.now) assoc kind) }
    ensures so { NoneFailsBefore (schema_in parts.now) kind
        → IfOk result (λ found. (conflict : Conflict) → found ≡ Some conflict → IsSo (basis_of parts.now) conflict) }
{
    parts_are_a_basis();
    link_conflicts_are_exact();
    conflict_of(alloc, parts, kind, assoc)
}

// The same by where the links stand.
fn conflict_of(
    alloc: Global,
    parts: &Parts<'_>,
    kind: FailKind,
    assoc: AssocId,
) -> Result<Option<Conflict>, Memory>
    requires parts { AreParts parts.now }
    requires assoc { assoc.index < length (schema_in parts.now).model.assocs }
    ensures told { IfOk result (λ found. (conflict : Conflict) → found ≡ Some conflict → IsLinkConflictAt (basis_of parts.now) assoc kind conflict) }
    ensures free { IfOk result (λ found. found ≡ None → (conflict : Conflict) → ¬ IsLinkConflictAt (basis_of parts.now) assoc kind conflict) }
{
    match parts.cells.link_place(assoc) {
        LinkPlace::Joined(_) => joined_conflict(alloc, parts, kind, assoc),
        LinkPlace::Hosted { first_hosts, .. } => {
            let declared = parts.model.assocs.at(assoc.index as usize);
            Ok(many_conflict(kind, assoc, partner_end(first_hosts, declared).mult))
        }
        LinkPlace::Unmapped => Ok(unmapped_conflict(kind, assoc)),
        LinkPlace::Constraint => Ok(None),
    }
}

// Partners of any number.
fn many_conflict(kind: FailKind, assoc: AssocId, partners: Mult) -> Option<Conflict>
    ensures { result ≡ many_found kind assoc partners }
{
    match (kind, partners) {
        (FailKind::Clash, Mult::Many) => Some(Conflict::ManyLinks(assoc)),
        _ => None,
    }
}

// Links that nothing maps.
fn unmapped_conflict(kind: FailKind, assoc: AssocId) -> Option<Conflict>
    ensures { result ≡ unmapped_found kind assoc }
{
    match kind {
        FailKind::Same => Some(Conflict::Unmapped(assoc)),
        _ => None,
    }
}

// A conflict of this kind at the link of an association.
fn joined_conflict(
    alloc: Global,
    parts: &Parts<'_>,
    kind: FailKind,
    assoc: AssocId,
) -> Result<Option<Conflict>, Memory>
    requires parts { AreParts parts.now }
    ensures { IfOk result (FindsOne (basis_of parts.now) (focus.Link assoc) kind) }
{
    let pattern = link_pattern(alloc, parts, assoc)?;
    match kind {
        FailKind::Clash => clash_at(alloc, parts, FocusRef::Link(assoc), &pattern),
        FailKind::Null => null_at(alloc, parts, FocusRef::Link(assoc), &pattern),
        FailKind::Disagrees => hidden_at(alloc, parts, assoc, &pattern),
        FailKind::Dangling | FailKind::Same => Ok(None),
    }
}

// A fragment that doesn't show the row of a link.
fn hidden_at(
    alloc: Global,
    parts: &Parts<'_>,
    assoc: AssocId,
    pattern: &Pattern,
) -> Result<Option<Conflict>, Memory>
    requires { pattern.now ≡ pattern_of (basis_of parts.now) (focus.Link assoc) }
    ensures { IfOk result (FindsOne (basis_of parts.now) (focus.Link assoc) fails.Disagrees) }
{
    match hiding(parts, assoc, pattern) {
        Some(fragment) => Ok(Some(Conflict::Disagree {
            focus: Focus::Link(assoc),
            place: fragment.place.copy(alloc)?,
        })),
        None => Ok(None),
    }
}

fn hiding<'m>(parts: &Parts<'m>, assoc: AssocId, pattern: &Pattern) -> Option<&'m LinkFragment>
    requires { pattern.now ≡ pattern_of (basis_of parts.now) (focus.Link assoc) }
    ensures { option_copied result ≡ find (hides_link (basis_of parts.now) assoc) parts.now.mapping.now.links }
{
    parts
        .mapping
        .links
        .as_slice()
        .iter()
        .find(|fragment| hides(parts, assoc, pattern, fragment))
}

// Whether it is one of the association, and doesn't show the row.
fn hides(parts: &Parts<'_>, assoc: AssocId, pattern: &Pattern, fragment: &LinkFragment) -> bool
    requires { pattern.now ≡ pattern_of (basis_of parts.now) (focus.Link assoc) }
    ensures { result ≡ hides_link (basis_of parts.now) assoc fragment.now }
{
    fragment.assoc.index == assoc.index
        && !shows_link(parts, FocusRef::Link(assoc), pattern, fragment)
}
