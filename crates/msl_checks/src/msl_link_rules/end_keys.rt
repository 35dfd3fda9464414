ghost use Rattle.std.specs.Prelude.{◌≡◌, ◌↔◌, All, Contains, IfOk, IsTrue, map};
ghost use Rattle.round_trip.specs.Words.{key_props};
ghost use Rattle.msl_rules.specs.LinkRules.{IsEndKeyUnwritten, WritesJust};
ghost use Rattle.msl_checks.specs.msl_written.Within.{schema_in};

use crate::msl_written::Between;
use edm_types::{End, EntityModel, Pair};
use emc_base::{Memory, PropId, TypeId};
use msl_meaning::InTable;
use msl_rules::RawEndMapping;
use std::alloc::Global;

/// Whether an end of an association, in the table at a place, isn't written by just the key of its type. `Memory` comes where memory ran out.
pub fn is_key_unwritten(
    alloc: Global,
    between: &Between<'_>,
    table: usize,
    known: &End,
    end: &RawEndMapping,
) -> Result<bool, Memory>
    ensures { IfOk result (λ yes. IsTrue yes ↔ IsEndKeyUnwritten (schema_in between.now) table known.now end.now) }
{
    let names = between.names;
    let ty = Some(known.ty.index as usize);
    let pairs = InTable { names, ty, table }.pairs(alloc, &end.pairs)?;
    let key = key_of(names.model, known.ty);
    Ok(!writes_just(key, pairs.as_slice()))
}

// The key of a type.
fn key_of(model: &EntityModel, ty: TypeId) -> &[PropId]
    ensures { result.now ≡ key_props model.now ty }
{
    match model.types.get(ty.index as usize) {
        Some(entry) => entry.key.as_slice(),
        None => &[],
    }
}

// Whether each property of the key is written, and no other.
fn writes_just(key: &[PropId], pairs: &[Pair]) -> bool
    ensures { IsTrue result ↔ WritesJust key.now pairs.now }
{
    are_all_written(pairs, key) && are_all_within(key, pairs)
}

// Whether each of these properties is that of some pair.
fn are_all_written(pairs: &[Pair], key: &[PropId]) -> bool
    ensures { IsTrue result ↔ All (Contains (map (λ pair. pair.prop) pairs.now)) key.now }
{
    key.iter().all(|prop| is_written(pairs, *prop))
}

// Whether the property is that of some pair.
fn is_written(pairs: &[Pair], prop: PropId) -> bool
    ensures { IsTrue result ↔ Contains (map (λ pair. pair.prop) pairs.now) prop }
{
    pairs.iter().any(|pair| pair.prop == prop)
}

// Whether the property of each pair is one of these.
fn are_all_within(key: &[PropId], pairs: &[Pair]) -> bool
    ensures { IsTrue result ↔ All (λ pair. Contains key.now pair.prop) pairs.now }
{
    pairs.iter().all(|pair| key.contains(&pair.prop))
}
