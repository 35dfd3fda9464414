ghost use Rattle.std.specs.Prelude.{◌≡◌, ◌≤◌, ℕ, IfOk, not};
ghost use Rattle.round_trip.specs.Words.{EntityModel};
ghost use Rattle.population.specs.LinkStates.{at_end, at_first, at_second, entity_at, key_at, other_at, other_link, placed_at, plain_link};
ghost use Rattle.population.specs.Supported.{link_of};
ghost use Rattle.witness_state.specs.SmallLinks.{plain_end};

use edm_types::{Assoc, End, Entity, EntityModel, Link};
use emc_base::{Key, Memory};
use population::Placed;
use std::alloc::Global;
use supported_states::{key_from, plain_entity};

// Where the indices of the parts of the key begin at the first end of a link.
const FIRST_END: u32 = 8;

// Where they begin at its second end.
const SECOND_END: u32 = 12;

// Where those of a second partner's key begin.
const SECOND_KEY: u32 = 4;

/// An end of an association, and the first of the indices of a key at it.
#[derive(Clone, Copy)]
pub struct EndAt<'m> {
    /// The end.
    pub end: &'m End,
    /// The index of the first part of the key; those of the other parts follow it.
    pub index: u32,
}

/// The first end of an association, with the indices of its own.
pub fn at_first(declared: &Assoc) -> EndAt<'_>
    ensures { (model : EntityModel) (outer : ℕ) → plain_end result ≡ at_first model outer declared.now }
{
    EndAt {
        end: &declared.first,
        index: FIRST_END,
    }
}

/// The second end of an association, with the indices of its own.
pub fn at_second(declared: &Assoc) -> EndAt<'_>
    ensures { (model : EntityModel) (outer : ℕ) → plain_end result ≡ at_second model outer declared.now }
{
    EndAt {
        end: &declared.second,
        index: SECOND_END,
    }
}

/// The one or the other.
pub(crate) fn at_end(first: bool, declared: &Assoc) -> EndAt<'_>
    ensures { (model : EntityModel) (outer : ℕ) → plain_end result ≡ at_end model outer first declared.now }
{
    if first {
        at_first(declared)
    } else {
        at_second(declared)
    }
}

/// An end, with the indices of a second partner.
pub(crate) fn other_at(first: bool, declared: &Assoc) -> EndAt<'_>
    ensures { (model : EntityModel) (outer : ℕ) → plain_end result ≡ other_at model outer first declared.now }
{
    let end = if first {
        &declared.first
    } else {
        &declared.second
    };
    EndAt {
        end,
        index: SECOND_KEY,
    }
}

/// The key at an end, by one of the five rows of numbered values. `Memory` comes where memory ran out.
pub(crate) fn key_at(
    alloc: Global,
    model: &EntityModel,
    row: u32,
    one: &EndAt<'_>,
) -> Result<Key, Memory>
    requires { row ≤ 4 }
    ensures { IfOk result (λ key. key ≡ key_at model.now row (plain_end one.now)) }
{
    key_from(alloc, model, row, one.end.set, u64::from(one.index))
}

/// The plain entity at an end, by one of the five rows of numbered values. `Memory` comes where memory ran out.
pub(crate) fn entity_at(
    alloc: Global,
    model: &EntityModel,
    row: u32,
    one: &EndAt<'_>,
) -> Result<Entity, Memory>
    requires { row ≤ 4 }
    ensures { IfOk result (λ entity. entity ≡ entity_at model.now row (plain_end one.now)) }
{
    let key = key_at(alloc, model, row, one)?;
    plain_entity(alloc, model, row, 0, one.end.ty, &key)
}

/// The plain entity at an end, by one of the five rows of numbered values, in its set. `Memory` comes where memory ran out.
pub fn placed_at(
    alloc: Global,
    model: &EntityModel,
    row: u32,
    one: &EndAt<'_>,
) -> Result<Placed, Memory>
    requires { row ≤ 4 }
    ensures { IfOk result (λ placed. placed ≡ placed_at model.now row (plain_end one.now)) }
{
    Ok(Placed {
        set: one.end.set,
        entity: entity_at(alloc, model, row, one)?,
    })
}

/// The link of the plain entities at both ends of an association, by one of the five rows of numbered values. `Memory` comes where memory
/// ran out.
pub fn plain_link(
    alloc: Global,
    model: &EntityModel,
    row: u32,
    declared: &Assoc,
) -> Result<Link, Memory>
    requires { row ≤ 4 }
    ensures { IfOk result (λ link. link ≡ plain_link model.now row declared.now) }
{
    Ok(Link {
        first: key_at(alloc, model, row, &at_first(declared))?,
        second: key_at(alloc, model, row, &at_second(declared))?,
    })
}

/// The link of the entity at an end to the second partner. `Memory` comes where memory ran out.
pub(crate) fn other_link(
    alloc: Global,
    model: &EntityModel,
    declared: &Assoc,
    first: bool,
) -> Result<Link, Memory>
    ensures { IfOk result (λ link. link ≡ other_link model.now 0 first declared.now) }
{
    let near = key_at(alloc, model, 0, &at_end(first, declared))?;
    let far = key_at(alloc, model, 0, &other_at(!first, declared))?;
    Ok(link_of(first, near, far))
}

/// The link with a key at its first end, or else at its second, and another key at the other end.
pub fn link_of(first: bool, key: Key, other: Key) -> Link
    ensures { result ≡ link_of first key other }
{
    if first {
        Link {
            first: key,
            second: other,
        }
    } else {
        Link {
            first: other,
            second: key,
        }
    }
}
