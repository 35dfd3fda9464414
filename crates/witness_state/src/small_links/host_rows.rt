ghost use Rattle.std.specs.Prelude.{◌≡◌, ◌==◌, IfOk, find};
ghost use Rattle.std.specs.Option.{option_copied};
ghost use Rattle.cells.specs.Parts.{AreParts, schema_in};
ghost use Rattle.region_states.specs.defaults.Defaults.{default_valuation};
ghost use Rattle.region_states.specs.focus.Held.{HasRow};
ghost use Rattle.region_states.specs.region_basis.BasisOf.{basis_of};
ghost use Rattle.regions.specs.region_laws.pattern.Described.{row_for, value_in};
ghost use Rattle.round_trip.specs.Words.{cell_of};
ghost use Rattle.witness_state.specs.SmallLinks.{IsRowAt, end_in_row, part_in_row};

use crate::region_values::value_under;
use crate::small_links::written::key_props;
use cells::Parts;
use edm_types::Pair;
use emc_base::{ColId, Key, Memory, PropId, Seq, TableId, TypeId, Value};
use regions::{Pattern, PatternRow, Region, Symbol};
use std::alloc::Global;

/// The row of a pattern in a table.
pub(crate) fn row_in(pattern: &Pattern, table: TableId) -> &PatternRow
    requires { HasRow pattern.now table }
    ensures { IsRowAt pattern.now table result.now }
{
    match row_to(pattern, table) {
        Some(row) => row,
        None => unreachable!(),
    }
}

// The first row in a table.
fn row_to(pattern: &Pattern, table: TableId) -> Option<&PatternRow>
    ensures { option_copied result ≡ find (λ row. row.table.index == table.index) pattern.now.rows }
{
    pattern
        .rows
        .as_slice()
        .iter()
        .find(|row| row.table.index == table.index)
}

/// The key of a type as a row's cells hold it where these pairs write it, by the usual values of a region's entity. `Memory` comes where
/// memory ran out.
pub(crate) fn end_in_row(
    alloc: Global,
    parts: &Parts<'_>,
    region: &Region,
    row: &PatternRow,
    ty: TypeId,
    pairs: &[Pair],
) -> Result<Key, Memory>
    requires { AreParts parts.now }
    ensures { IfOk result (λ key. key ≡ end_in_row (schema_in parts.now).model (row_for (default_valuation (basis_of parts.now) 0 region.now) row.now) ty pairs.now) }
{
    let mut key = Seq::empty(alloc);
    for property in key_props(parts.model, ty) {
        key.push(part_in_row(alloc, parts, region, row, pairs, *property)?)?;
    }
    Ok(key)
}

// The cell where the first of these pairs writes a property; null where none does.
fn part_in_row(
    alloc: Global,
    parts: &Parts<'_>,
    region: &Region,
    row: &PatternRow,
    pairs: &[Pair],
    property: PropId,
) -> Result<Value, Memory>
    requires { AreParts parts.now }
    ensures { IfOk result (λ value. value ≡ part_in_row (row_for (default_valuation (basis_of parts.now) 0 region.now) row.now) pairs.now property) }
{
    match pair_of(pairs, property) {
        Some(pair) => cell_in(alloc, parts, region, row, pair.col),
        None => Ok(Value::Null),
    }
}

// The first pair that writes a property.
fn pair_of(pairs: &[Pair], property: PropId) -> Option<&Pair>
    ensures { option_copied result ≡ find (λ pair. pair.prop.index == property.index) pairs.now }
{
    pairs.iter().find(|pair| pair.prop.index == property.index)
}

// What the row's cell holds.
fn cell_in(
    alloc: Global,
    parts: &Parts<'_>,
    region: &Region,
    row: &PatternRow,
    col: ColId,
) -> Result<Value, Memory>
    requires { AreParts parts.now }
    ensures { IfOk result (λ value. value ≡ cell_of (row_for (default_valuation (basis_of parts.now) 0 region.now) row.now) col) }
{
    match row.cells.get(col.index as usize) {
        Some(cell) => value_in(alloc, parts, region, cell.as_slice()),
        None => Ok(Value::Null),
    }
}

// The value of the first symbol; null where none is listed.
fn value_in(
    alloc: Global,
    parts: &Parts<'_>,
    region: &Region,
    cell: &[Symbol],
) -> Result<Value, Memory>
    requires { AreParts parts.now }
    ensures { IfOk result (λ value. value ≡ value_in (default_valuation (basis_of parts.now) 0 region.now) cell.now) }
{
    match cell.first() {
        Some(symbol) => value_under(alloc, parts, region, None, symbol),
        None => Ok(Value::Null),
    }
}
