ghost use Rattle.std.specs.Prelude.{◌≡◌, ◌++◌, IfOk, drop, take};
ghost use Rattle.query_views.specs.Lent.{shown_values};

use emc_base::{Memory, Value};
use std::alloc::Global;

/// The values of two keys, one behind the other. `Memory` comes where memory ran out.
pub(super) fn both_keys<'t>(
    alloc: Global,
    first: &[&'t Value],
    second: &[&'t Value],
) -> Result<Vec<&'t Value>, Memory>
    ensures { IfOk result (λ both. shown_values both.items ≡ shown_values first.now ++ shown_values second.now) }
{
    let mut both = Vec::new(alloc);
    add_values(&mut both, first)?;
    add_values(&mut both, second)?;
    Ok(both)
}

// Adds values at the end of a key.
fn add_values<'t>(key: &mut Vec<&'t Value>, values: &[&'t Value]) -> Result<(), Memory>
    ensures { IfOk result (λ _. shown_values key.new.items ≡ shown_values key.old.items ++ shown_values values.now) }
{
    for value in values {
        key.push(*value)?;
    }
    Ok(())
}

/// The first so many values of two keys.
pub(crate) fn first_key<'a, 't>(both: &'a [&'t Value], first_len: usize) -> &'a [&'t Value]
    ensures { result.now ≡ take first_len both.now }
{
    if first_len < both.len() {
        &both[..first_len]
    } else {
        both
    }
}

/// The values behind the first so many.
pub(crate) fn second_key<'a, 't>(both: &'a [&'t Value], first_len: usize) -> &'a [&'t Value]
    ensures { result.now ≡ drop first_len both.now }
{
    if first_len < both.len() {
        &both[first_len..]
    } else {
        &[]
    }
}
