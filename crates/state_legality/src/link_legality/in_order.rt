ghost use Rattle.std.specs.Prelude.{◌≡◌, All, Contains, IfOk, IsTrue, map};
ghost use Rattle.edm_types.specs.Forest.{type_numbered};
ghost use Rattle.round_trip.specs.Words.{IsA};
ghost use Rattle.round_trip.specs.soundness.models.ModelIds.{IsTypeId};
ghost use Rattle.round_trip.specs.soundness.models.Models.{IsSoundModel};
ghost use Rattle.state_legality.specs.link_legality.Ends.{IsMarked};
ghost use Rattle.state_legality.specs.link_legality.Sides.{end_at, partners_at};
ghost use Rattle.state_legality.specs.link_legality.InOrder.{HasEach, IsOnce, KeepInOrder, StandTogether, StandsWith};

use crate::link_legality::once::key_pairs;
use crate::link_legality::side::Side;
use crate::link_legality::under::{is_marked, marks_under};
use edm_types::{Assoc, EntityModel, Link, Mult};
use emc_base::{KeyRef, Memory, TypeId};
use entity_state::first_repeat;
use std::alloc::Global;

/// Whether the links of an association keep S5 to S7, as their keys tell beside those that stand in the sets of its ends, each with the number of its
/// entity's type, if both are in order. A false answer says nothing. `Memory` comes where memory ran out.
pub fn keep_in_order(
    alloc: Global,
    model: &EntityModel,
    first: &[(KeyRef<'_>, u32)],
    second: &[(KeyRef<'_>, u32)],
    links: &[Link],
    assoc: &Assoc,
) -> Result<bool, Memory>
    requires sound { IsSoundModel model.now }
    requires first { IsTypeId model.now assoc.now.first.ty }
    requires second { IsTypeId model.now assoc.now.second.ty }
    ensures { IfOk result (λ kept. IsTrue kept → KeepInOrder model.now assoc.now first.now second.now links.now) }
{
    let mut pairs = key_pairs(alloc, links)?;
    pairs.sort()?;
    if first_repeat(alloc, &pairs)?.is_some() {
        return Ok(false);
    }
    let (firsts, seconds) = split(alloc, pairs)?;
    if !keep_side(alloc, model, first, &firsts, assoc, Side::First)? {
        return Ok(false);
    }
    keep_sorted(alloc, model, second, seconds, assoc, Side::Second)
}

// The keys at the first end, and those at the second.
fn split<'k>(
    alloc: Global,
    pairs: Vec<(KeyRef<'k>, KeyRef<'k>)>,
) -> Result<(Vec<KeyRef<'k>>, Vec<KeyRef<'k>>), Memory>
    ensures firsts { IfOk result (λ both. both.0.items ≡ map (λ pair. pair.0) pairs.entry.items) }
    ensures seconds { IfOk result (λ both. both.1.items ≡ map (λ pair. pair.1) pairs.entry.items) }
{
    let mut firsts = Vec::with_capacity(alloc, pairs.len())?;
    let mut seconds = Vec::with_capacity(alloc, pairs.len())?;
    for (first, second) in pairs {
        firsts.push(first)?;
        seconds.push(second)?;
    }
    Ok((firsts, seconds))
}

// The same as `keep_side`, of links' keys that are put in order first.
fn keep_sorted(
    alloc: Global,
    model: &EntityModel,
    standing: &[(KeyRef<'_>, u32)],
    mut linked: Vec<KeyRef<'_>>,
    assoc: &Assoc,
    side: Side,
) -> Result<bool, Memory>
    requires sound { IsSoundModel model.now }
    requires known { IsTypeId model.now (end_at assoc.now side).ty }
    ensures { IfOk result (λ kept. IsTrue kept → StandTogether (partners_at assoc.now side) (λ t. IsA model.now t (end_at assoc.now side).ty) standing.now linked.entry.items) }
{
    linked.sort()?;
    keep_side(alloc, model, standing, &linked, assoc, side)
}

// Whether the keys of links at this side are some of those that stand there, and of each as many as the multiplicity allows, if both are in order. A
// false answer says nothing.
fn keep_side(
    alloc: Global,
    model: &EntityModel,
    standing: &[(KeyRef<'_>, u32)],
    linked: &[KeyRef<'_>],
    assoc: &Assoc,
    side: Side,
) -> Result<bool, Memory>
    requires sound { IsSoundModel model.now }
    requires known { IsTypeId model.now (end_at assoc.now side).ty }
    ensures { IfOk result (λ kept. IsTrue kept → StandTogether (partners_at assoc.now side) (λ t. IsA model.now t (end_at assoc.now side).ty) standing.now linked.now) }
{
    let mult = side.partners_of(assoc);
    if !are_once(alloc, mult, linked)? {
        return Ok(false);
    }
    let under = marks_under(alloc, model, side.end_of(assoc).ty)?;
    Ok(are_held(linked, standing, &under) && have_each(mult, standing, linked, &under))
}

// Whether no key stands twice, or the multiplicity allows any number of links.
fn are_once(alloc: Global, mult: Mult, linked: &[KeyRef<'_>]) -> Result<bool, Memory>
    ensures { IfOk result (λ once. IsTrue once → IsOnce mult linked.now) }
{
    match mult {
        Mult::Many => Ok(true),
        _ => Ok(first_repeat(alloc, linked)?.is_none()),
    }
}

// Whether each key stands there with a type that is marked, if both are in order. A false answer says nothing.
fn are_held(linked: &[KeyRef<'_>], standing: &[(KeyRef<'_>, u32)], under: &[bool]) -> bool
    ensures { IsTrue result → All (StandsWith (IsMarked under.now) standing.now) linked.now }
{
    let mut at = 0;
    for key in linked {
        at = standing_from(standing, at, key);
        if !stands_at(standing, at, key, under) {
            return false;
        }
    }
    true
}

// The first place from here on at which no smaller key stands, if they are in order.
fn standing_from(standing: &[(KeyRef<'_>, u32)], from: usize, key: &KeyRef<'_>) -> usize {
    for place in from..standing.len() {
        if !standing[place].0.compare(key).is_lt() {
            return place;
        }
    }
    standing.len()
}

// Whether the key stands at this place, with a type that is marked. A false answer says nothing.
fn stands_at(standing: &[(KeyRef<'_>, u32)], place: usize, key: &KeyRef<'_>, under: &[bool]) -> bool
    ensures { IsTrue result → StandsWith (IsMarked under.now) standing.now key.now }
{
    match standing.get(place) {
        Some(one) => is_it(&one.0, key) && is_marked(under, TypeId { index: one.1 }),
        None => false,
    }
}

// Whether two keys are the same.
fn is_it(one: &KeyRef<'_>, other: &KeyRef<'_>) -> bool
    ensures { IsTrue result → one.now ≡ other.now }
{
    one.compare(other).is_eq()
}

// Whether each key that stands there with a type that is marked is one that a link has, where the multiplicity is `1`, if both are in order. A false
// answer says nothing.
fn have_each(
    mult: Mult,
    standing: &[(KeyRef<'_>, u32)],
    linked: &[KeyRef<'_>],
    under: &[bool],
) -> bool
    ensures { IsTrue result → HasEach mult (IsMarked under.now) standing.now linked.now }
{
    match mult {
        Mult::One => are_linked(standing, linked, under),
        _ => true,
    }
}

// Whether each key that stands there with a type that is marked is one that a link has, if both are in order. A false answer says nothing.
fn are_linked(standing: &[(KeyRef<'_>, u32)], linked: &[KeyRef<'_>], under: &[bool]) -> bool
    ensures { IsTrue result → All (λ one. IsMarked under.now (type_numbered one.1) → Contains linked.now one.0) standing.now }
{
    let mut at = 0;
    for one in standing {
        at = linked_from(linked, at, &one.0);
        if !is_met(one, linked, at, under) {
            return false;
        }
    }
    true
}

// Whether a link has the key at this place, or the type isn't marked. A false answer says nothing.
fn is_met(one: &(KeyRef<'_>, u32), linked: &[KeyRef<'_>], place: usize, under: &[bool]) -> bool
    ensures { IsTrue result → IsMarked under.now (type_numbered one.now.1) → Contains linked.now one.now.0 }
{
    !is_marked(under, TypeId { index: one.1 }) || is_linked_at(linked, place, &one.0)
}

// The first place from here on at which no smaller key stands, if they are in order.
fn linked_from(linked: &[KeyRef<'_>], from: usize, key: &KeyRef<'_>) -> usize {
    for place in from..linked.len() {
        if !linked[place].compare(key).is_lt() {
            return place;
        }
    }
    linked.len()
}

// Whether a link has the key at this place. A false answer says nothing.
fn is_linked_at(linked: &[KeyRef<'_>], place: usize, key: &KeyRef<'_>) -> bool
    ensures { IsTrue result → Contains linked.now key.now }
{
    match linked.get(place) {
        Some(found) => is_it(found, key),
        None => false,
    }
}
