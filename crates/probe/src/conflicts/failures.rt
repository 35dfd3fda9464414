ghost use Rattle.std.specs.Prelude.{◌≡◌, IfSome, Some};
ghost use Rattle.cells.specs.Parts.{AreParts, schema_in};
ghost use Rattle.round_trip.specs.Words.{IsState};
ghost use Rattle.witness_state.specs.Failures.{IsFailureOf};
ghost use Rattle.witness_state.specs.declared.failure.Failure.{Failure};

use crate::models::put_printed;
use crate::views::all_regions;
use cells::Parts;
use edm_types::EntityModel;
use entity_state::EntityState;
use json_form::place_text;
use mapping_core::{Failure, first_failure};
use round_trip::FailKind;
use std::alloc::Global;

/// Puts the kind and the place of the failure that is shown of a mapping, the state that fails, and for the kind same the other one; or that there is none.
/// `None` where a limit is passed, or memory ran out.
pub fn put_failure(alloc: Global, text: &mut String, parts: &Parts<'_>) -> Option<()>
    requires { AreParts parts.now }
{
    let regions = all_regions(alloc, parts)?;
    match first_failure(alloc, parts, &regions) {
        Ok(found) => put_found(alloc, text, parts, found),
        Err(_) => None,
    }
}

// Puts what is found.
fn put_found(
    alloc: Global,
    text: &mut String,
    parts: &Parts<'_>,
    found: Option<Failure>,
) -> Option<()>
    requires { (failure : Failure) → found ≡ Some failure → IsFailureOf (schema_in parts.now) failure }
{
    match found {
        Some(failure) => {
            let put = put_shown(alloc, text, parts, &failure);
            drop(failure);
            put
        }
        None => text.push_str("none\n").ok(),
    }
}

// Puts what is shown.
fn put_shown(alloc: Global, text: &mut String, parts: &Parts<'_>, failure: &Failure) -> Option<()>
    requires { IsFailureOf (schema_in parts.now) failure.now }
{
    put_kind(alloc, text, failure)?;
    put_printed(alloc, text, parts.model, &failure.state)?;
    put_other(alloc, text, parts.model, &failure.other)
}

// Puts the kind and the place, each on a line.
fn put_kind(alloc: Global, text: &mut String, failure: &Failure) -> Option<()> {
    let word = word_of(failure.kind);
    let place = place_text(alloc, &failure.place).ok()?;
    let lines = format!(in alloc; "{word}\n{place}\n").ok()?;
    text.push_str(lines.as_str()).ok()
}

// Puts the other state, where there is one.
fn put_other(
    alloc: Global,
    text: &mut String,
    model: &EntityModel,
    other: &Option<EntityState>,
) -> Option<()>
    requires { IfSome other.now (λ state. IsState model.now state) }
{
    match other {
        Some(state) => put_printed(alloc, text, model, state),
        None => Some(()),
    }
}

// A word for a kind.
fn word_of(kind: FailKind) -> &'static str {
    match kind {
        FailKind::Clash => "clash",
        FailKind::Null => "null",
        FailKind::Disagrees => "disagrees",
        FailKind::Dangling => "dangling",
        FailKind::Same => "same",
    }
}
