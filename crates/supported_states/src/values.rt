ghost use Rattle.std.specs.Prelude.{◌≡◌, ◌<◌, ◌≤◌, ◌^◌, IfOk, IfSome, pos, slice_get, unwrap_or};
ghost use Rattle.schema_laws.specs.short_values.Numbers.{letter};
ghost use Rattle.schema_laws.specs.short_values.Fresh.{fresh, fresh_at};
ghost use Rattle.population.specs.Plain.{first_value};

use edm_types::EntityModel;
use emc_base::{Bin, Kind, Memory, PropId, Txt, Value};
use std::alloc::Global;

/// The value of a kind with this index, of one of the five rows of numbered values. `Memory` comes where memory ran out; a text whose
/// character there isn't counts as that too.
pub fn fresh(alloc: Global, kind: &Kind, row: u32, index: u64) -> Result<Value, Memory>
    requires row { row ≤ 4 }
    requires index { index < 2 ^ 48 }
    ensures { IfOk result (λ value. value ≡ fresh kind.now row index) }
{
    match kind {
        Kind::Text(_) => letter(alloc, 5 * index + row as u64 + 97),
        _ => Ok(Value::Whole((5 * index + row as u64 + 7) as i64)),
    }
}

/// The value of a property's kind with this index, of one of the five rows of numbered values; null where there is no such property.
/// `Memory` comes where memory ran out.
pub fn fresh_at(
    alloc: Global,
    model: &EntityModel,
    row: u32,
    property: PropId,
    index: u64,
) -> Result<Value, Memory>
    requires row { row ≤ 4 }
    requires index { index < 2 ^ 48 }
    ensures { IfOk result (λ value. value ≡ fresh_at model.now row property index) }
{
    match model.props.get(property.index as usize) {
        Some(declared) => fresh(alloc, &declared.kind, row, index),
        None => Ok(Value::Null),
    }
}

/// The text of the one character of this code. `Memory` comes where memory ran out, or there is no such character.
pub fn letter(alloc: Global, code: u64) -> Result<Value, Memory>
    ensures { IfOk result (λ value. value ≡ letter code) }
{
    match char_of(code) {
        Some(character) => text_of(alloc, character),
        None => Err(Memory),
    }
}

// The character of this code.
fn char_of(code: u64) -> Option<char>
    ensures { IfSome result (λ character. character ≡ code) }
{
    let code = u32::try_from(code).ok()?;
    char::from_u32(code)
}

// The text of one character.
fn text_of(alloc: Global, character: char) -> Result<Value, Memory>
    ensures { IfOk result (λ value. value ≡ letter character) }
{
    let mut text = String::new(alloc);
    text.push(character)?;
    Ok(Value::Text(Txt::from_string(text)))
}

/// The value of a kind where nothing is asked. `Memory` comes where memory ran out.
pub(crate) fn first_value(alloc: Global, kind: &Kind) -> Result<Value, Memory>
    ensures { IfOk result (λ value. value ≡ first_value kind.now) }
{
    match kind {
        Kind::Boolean => Ok(Value::Flag(false)),
        Kind::Text(_) => Ok(Value::Text(Txt::from_string(String::new(alloc)))),
        Kind::Binary(_) => Ok(Value::Bytes(Bin::from_vec(Vec::new(alloc)))),
        Kind::Enum(enumeration) => Ok(Value::Whole(first_number(enumeration.members.as_slice()))),
        _ => Ok(Value::Whole(0)),
    }
}

// The first of these numbers; 0 where there is none.
fn first_number(numbers: &[i64]) -> i64
    ensures { result ≡ unwrap_or (slice_get numbers.now 0) (pos 0) }
{
    match numbers.first() {
        Some(number) => *number,
        None => 0,
    }
}
