ghost use Rattle.std.specs.Prelude.{◌≡◌, IfOk, MatchOption};
ghost use Rattle.emc_base.specs.declared.value.Value.{Value};
ghost use Rattle.msl_rules.specs.condition_values.Spelled.{IsSpelled, flag_of, spelled};

use crate::condition_values::numbers::number_of;
use emc_base::{Kind, Memory, Txt, Value, in_domain};
use std::alloc::Global;

/// The value that a text gives for a kind, where it lies in the kind's domain. `Memory` comes where memory ran out.
pub fn value_of(alloc: Global, kind: &Kind, text: &Txt) -> Result<Option<Value>, Memory>
    ensures { IfOk result (λ found. MatchOption found
        ((value : Value) → ¬ IsSpelled kind.now text.now value)
        (IsSpelled kind.now text.now)) }
{
    let value = spelled(alloc, kind, text)?;
    Ok(value.filter(|value| in_domain(value, kind)))
}

/// The value that a text gives for a kind, whether it lies in the kind's domain or not. `Memory` comes where memory ran out.
pub fn spelled(alloc: Global, kind: &Kind, text: &Txt) -> Result<Option<Value>, Memory>
    ensures { IfOk result (λ found. found ≡ spelled kind.now text.now) }
{
    match kind {
        Kind::Boolean => Ok(flag_of(text.as_str()).map(Value::Flag)),
        Kind::Text(_) => Ok(Some(Value::Text(text.copy(alloc)?))),
        Kind::Binary(_) => Ok(None),
        Kind::Byte | Kind::Int16 | Kind::Int32 | Kind::Int64 | Kind::Enum(_) => {
            Ok(number_of(text.as_str()).map(Value::Whole))
        }
    }
}

// The flag that a text names.
fn flag_of(text: &str) -> Option<bool>
    ensures { result ≡ flag_of text.now }
{
    match text {
        "true" | "True" | "1" => Some(true),
        "false" | "False" | "0" => Some(false),
        _ => None,
    }
}
