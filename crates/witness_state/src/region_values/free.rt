ghost use Rattle.std.specs.Prelude.{◌≡◌, ◌<◌, ◌^◌, [], ◌∷◌, IfOk, length, slice_get, take, unwrap_or};
ghost use Rattle.std.specs.List.{list_any};
ghost use Rattle.emc_base.specs.Lists.{At};
ghost use Rattle.schema_laws.specs.state_demand.Selecting.{same_value};
ghost use Rattle.round_trip.specs.Words.{Bytes, Null};
ghost use Rattle.region_states.specs.defaults.Candidates.{candidates, first_free, free_values, next_free};
ghost use Rattle.witness_state.specs.region_values.Free.{is_left};

use emc_base::{Bin, Kind, Memory, Value};
use std::alloc::Global;
use supported_states::letter;

/// The first candidate of a kind that is none of the constants; of flags and of an enumeration the first one of all.
pub fn first_free(alloc: Global, kind: &Kind, constants: &[Value]) -> Result<Value, Memory>
    ensures { IfOk result (λ value. value ≡ first_free kind.now constants.now) }
{
    free_value(alloc, kind, constants, 0)
}

/// The second one.
pub fn next_free(alloc: Global, kind: &Kind, constants: &[Value]) -> Result<Value, Memory>
    ensures { IfOk result (λ value. value ≡ next_free kind.now constants.now) }
{
    free_value(alloc, kind, constants, 1)
}

// The one before which so many others stand; null where there is none.
fn free_value(alloc: Global, kind: &Kind, constants: &[Value], before: u32) -> Result<Value, Memory>
    ensures { IfOk result (λ value. value ≡ unwrap_or (slice_get (free_values kind.now constants.now) before) Null) }
{
    let mut left = before;
    for place in 0..count_candidates(kind) {
        let value = candidate(alloc, kind, place)?;
        if is_left(kind, constants, &value) {
            if left == 0 {
                return Ok(value);
            }
            left -= 1;
        }
    }
    Ok(Value::Null)
}

// Whether a candidate counts as free: of flags and of an enumeration each does, else what is none of the constants.
fn is_left(kind: &Kind, constants: &[Value], value: &Value) -> bool
    ensures { result ≡ is_left kind.now constants.now value.now }
{
    match kind {
        Kind::Boolean | Kind::Enum(_) => true,
        _ => !is_constant(constants, value),
    }
}

// Whether a value is one of the constants.
fn is_constant(constants: &[Value], value: &Value) -> bool
    ensures { result ≡ list_any (same_value value.now) constants.now }
{
    constants.iter().any(|constant| value == constant)
}

// How many candidates a kind has.
fn count_candidates(kind: &Kind) -> usize
    ensures count { result ≡ length (candidates kind.now) }
    ensures bound { result < 2 ^ 32 }
{
    match kind {
        Kind::Boolean | Kind::Binary(_) => 2,
        Kind::Enum(enumeration) => enumeration.members.len(),
        _ => 100,
    }
}

// The candidate at a place.
fn candidate(alloc: Global, kind: &Kind, place: usize) -> Result<Value, Memory>
    requires within { place < length (candidates kind.now) }
    requires bound { place < 2 ^ 32 }
    ensures { IfOk result (At (candidates kind.now) place) }
{
    match kind {
        Kind::Boolean => Ok(Value::Flag(place == 1)),
        Kind::Text(_) => letter(alloc, place as u64 + 97),
        Kind::Binary(_) => zeros(alloc, place),
        Kind::Enum(enumeration) => Ok(Value::Whole(*enumeration.members.at(place))),
        _ => Ok(Value::Whole(place as i64)),
    }
}

// So many zeros, at most one.
fn zeros(alloc: Global, count: usize) -> Result<Value, Memory>
    requires { count < 2 }
    ensures { IfOk result (λ value. value ≡ Bytes (take count (0 ∷ []))) }
{
    let bytes = [0];
    Ok(Value::Bytes(Bin::of(alloc, &bytes[..count])?))
}
