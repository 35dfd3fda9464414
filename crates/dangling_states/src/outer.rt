ghost use Rattle.std.specs.Prelude.{◌≡◌, IfOk, chars};
ghost use Rattle.cells.specs.Parts.{AreParts};
ghost use Rattle.region_states.specs.region_basis.BasisOf.{basis_of};
ghost use Rattle.dangling_keys.specs.Outer.{is_taken, outer_row, outer_value, outer_values, row_beside, row_of, row_of_letters};
ghost use Rattle.dangling_keys.specs.Showing.{cell_at};
ghost use Rattle.dangling_search.specs.Lent.{IsLook, settled_of};

use cells::Parts;
use dangling_search::{Look, Shown, cell_at};
use edm_types::ForeignKey;
use emc_base::{ColId, Memory, Seq, Txt, Value, character_count};
use regions::Symbol;
use std::alloc::Global;
use witness_state::first_free_of;

/// The first of the five rows of numbers that has none of the values that are no parts of keys and that the row of a focus shows in the columns of a foreign
/// key. `Memory` comes where memory ran out.
pub fn outer_row(
    alloc: Global,
    parts: &Parts<'_>,
    look: Look<'_>,
    key: &ForeignKey,
) -> Result<u32, Memory>
    requires parts { AreParts parts.now }
    requires look { IsLook (basis_of parts.now) look }
    ensures { IfOk result (λ row. row ≡ outer_row (basis_of parts.now) look.entry.of.now key.now) }
{
    let values = outer_values(alloc, parts, look, key)?;
    Ok(row_beside(values.as_slice()))
}

// The values of the cells from which the key points.
fn outer_values(
    alloc: Global,
    parts: &Parts<'_>,
    look: Look<'_>,
    key: &ForeignKey,
) -> Result<Seq<Value>, Memory>
    requires parts { AreParts parts.now }
    requires look { IsLook (basis_of parts.now) look }
    ensures { IfOk result (λ values. values ≡ outer_values (basis_of parts.now) look.entry.of.now key.now) }
{
    let mut values = Seq::empty(alloc);
    for col in key.from_cols.as_slice() {
        values.push(outer_value_at(alloc, parts, look, key, *col)?)?;
    }
    Ok(values)
}

// That of one cell.
fn outer_value_at(
    alloc: Global,
    parts: &Parts<'_>,
    look: Look<'_>,
    key: &ForeignKey,
    col: ColId,
) -> Result<Value, Memory>
    requires parts { AreParts parts.now }
    requires look { IsLook (basis_of parts.now) look }
    ensures { IfOk result (λ value. value ≡ outer_value (basis_of parts.now) (cell_at (basis_of parts.now) look.entry.of.now key.now.from col)) }
{
    outer_value(alloc, parts, &cell_at(parts, look, key.from, col))
}

// The value that a cell holds where this is no part of a key: the one that is known, or the first of the property that is no constant.
fn outer_value(alloc: Global, parts: &Parts<'_>, shown: &Shown<'_>) -> Result<Value, Memory>
    requires { AreParts parts.now }
    ensures { IfOk result (λ value. value ≡ outer_value (basis_of parts.now) (settled_of shown.now)) }
{
    match shown {
        Shown::Known(value) => value.copy(alloc),
        Shown::Symbol {
            one: Symbol::Prop(prop),
            ..
        } => first_free_of(alloc, parts, *prop),
        Shown::Nothing | Shown::Symbol { .. } => Ok(Value::Null),
    }
}

// The first of the five rows of which none of these is, where they are at most four.
fn row_beside(values: &[Value]) -> u32
    ensures { result ≡ row_beside values.now }
{
    if !is_taken(values, 0) {
        return 0;
    }
    if !is_taken(values, 1) {
        return 1;
    }
    if !is_taken(values, 2) {
        return 2;
    }
    if is_taken(values, 3) { 4 } else { 3 }
}

// Whether one of the values may be of the row.
fn is_taken(values: &[Value], row: u32) -> bool
    ensures { result ≡ is_taken values.now row }
{
    values.iter().any(|value| row_of(value) == row)
}

// The row of a number, or of the letter of a text; 5, which is no row, of another value.
fn row_of(value: &Value) -> u32
    ensures { result ≡ row_of value.now }
{
    match value {
        Value::Whole(number) if *number >= 0 => ((*number as u64 + 3) % 5) as u32,
        Value::Text(text) => row_of_text(text),
        _ => 5,
    }
}

// The row of a text of one letter.
fn row_of_text(text: &Txt) -> u32
    ensures { result ≡ row_of_letters (chars text.now) }
{
    if character_count(text.as_str()) != 1 {
        return 5;
    }
    match text.as_str().chars().next() {
        Some(letter) => (letter as u32 + 3) % 5,
        None => 5,
    }
}
