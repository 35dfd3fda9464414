ghost use Rattle.std.specs.Prelude.{◌≡◌, ◌<◌, ◌≤◌, ◌^◌, IfOk, slice_get};
ghost use Rattle.std.specs.Option.{option_copied};
ghost use Rattle.population.specs.LinkStates.{key_from};
ghost use Rattle.population.specs.Numbered.{asked_type, end_number, ends_of, number_count, numbered, numbered_key, type_at_end};

use crate::declared::{end_of, place_in, set_key};
use crate::plain::plain_entity;
use crate::values::fresh_at;
use edm_types::{End, Entity, EntityModel, EntitySet};
use emc_base::{AssocId, Key, Memory, Seq, SetId, TypeId, narrow};
use std::alloc::Global;

/// Where the indices of the entities begin that each set has of each number.
pub(crate) const ADDED: u64 = 2000;

/// The key of a set's entity of a number. `Memory` comes where memory ran out.
pub fn numbered_key(
    alloc: Global,
    model: &EntityModel,
    row: u32,
    set: SetId,
    number: u32,
) -> Result<Key, Memory>
    requires { row ≤ 4 }
    ensures { IfOk result (λ key. key ≡ numbered_key model.now row set number) }
{
    let mut key = Seq::empty(alloc);
    for property in set_key(model, set) {
        key.push(fresh_at(alloc, model, row, *property, ADDED + number as u64)?)?;
    }
    Ok(key)
}

/// The key of a set whose parts have these indices, one after the other. `Memory` comes where memory ran out.
pub fn key_from(
    alloc: Global,
    model: &EntityModel,
    row: u32,
    set: SetId,
    index: u64,
) -> Result<Key, Memory>
    requires row { row ≤ 4 }
    requires index { index < 2 ^ 40 }
    ensures { IfOk result (λ key. key ≡ key_from model.now row set index) }
{
    let parts = set_key(model, set);
    let mut key = Seq::empty(alloc);
    for property in parts {
        let own = index + place_in(*property, parts) as u64;
        key.push(fresh_at(alloc, model, row, *property, own)?)?;
    }
    Ok(key)
}

/// How many numbers there are. More than 4,294,967,295 count as want of memory.
pub(crate) fn number_count(model: &EntityModel) -> Result<u32, Memory>
    ensures { IfOk result (λ count. count ≡ number_count model.now) }
{
    narrow(2 * model.assocs.len() + 1)
}

/// The number of an end of an association. One that is past 4,294,967,295 counts as want of memory.
pub(crate) fn end_number(first: bool, assoc: AssocId) -> Result<u32, Memory>
    ensures { IfOk result (λ number. number ≡ end_number first assoc) }
{
    if first {
        narrow(2 * assoc.index as usize + 1)
    } else {
        narrow(2 * assoc.index as usize + 2)
    }
}

/// A set's entity of a number. `Memory` comes where memory ran out.
pub(crate) fn numbered(
    alloc: Global,
    model: &EntityModel,
    row: u32,
    set: SetId,
    entry: &EntitySet,
    number: u32,
) -> Result<Entity, Memory>
    requires { row ≤ 4 }
    ensures { IfOk result (λ entity. entity ≡ numbered model.now row set entry.now number) }
{
    let key = numbered_key(alloc, model, row, set, number)?;
    let ty = asked_type(model, set, entry, number);
    plain_entity(alloc, model, row, number, ty, &key)
}

// The type that is asked of a set's entity of a number.
fn asked_type(model: &EntityModel, set: SetId, entry: &EntitySet, number: u32) -> TypeId
    ensures { result ≡ asked_type model.now set entry.now number }
{
    if number == 0 {
        return entry.element;
    }
    match end_at(model, number - 1) {
        Some(end) => type_at_end(set, entry, end),
        None => entry.element,
    }
}

// The type of an end that stands at the set, else the set's element type.
fn type_at_end(set: SetId, entry: &EntitySet, end: &End) -> TypeId
    ensures { (model : EntityModel) → result ≡ type_at_end model set entry.now end.now }
{
    if end.set.index == set.index {
        end.ty
    } else {
        entry.element
    }
}

// The end at a place among all ends, in the order of associations.
fn end_at(model: &EntityModel, place: u32) -> Option<&End>
    ensures { option_copied result ≡ slice_get (ends_of model.now.assocs) place }
{
    let assoc = model.assocs.get((place / 2) as usize)?;
    Some(end_of(place % 2 == 0, assoc))
}
