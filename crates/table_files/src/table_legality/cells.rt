ghost use Rattle.std.specs.Prelude.{◌≡◌, ◌↔◌, IsTrue};
ghost use Rattle.round_trip.specs.Words.{Null, Refers, cell_of, cells_of};
ghost use Rattle.table_files.specs.table_legality.Cells.{CellTold, ValueTold};

use crate::table_legality::rule::TableRule;
use edm_types::{Column, ForeignKey, Row};
use emc_base::{ColId, Value, in_domain};

/// The rule that a row's cell breaks, if it breaks one.
pub fn broken_rule(row: &Row, place: usize, column: &Column) -> Option<TableRule>
    ensures { CellTold row.now place column.now result }
{
    match row.cells.get(place) {
        None => value_rule(&Value::Null, column),
        Some(value) => value_rule(value, column),
    }
}

// The rule that a value breaks in a column, if it breaks one.
fn value_rule(value: &Value, column: &Column) -> Option<TableRule>
    ensures { ValueTold value.now column.now result }
{
    if is_null(value) {
        if column.nullable {
            None
        } else {
            Some(TableRule::NullCell)
        }
    } else if in_domain(value, &column.kind) {
        None
    } else {
        Some(TableRule::CellDomain)
    }
}

/// Whether a row's cell is null. One that isn't there is.
pub fn is_null_at(row: &Row, col: ColId) -> bool
    ensures { IsTrue result ↔ (cell_of row.now col ≡ Null) }
{
    match row.cells.get(col.index as usize) {
        Some(value) => is_null(value),
        None => true,
    }
}

fn is_null(value: &Value) -> bool
    ensures { IsTrue result ↔ (value.now ≡ Null) }
{
    matches!(value, Value::Null)
}

/// Whether two cells hold one value.
pub fn is_same_cell(row: &Row, col: ColId, other: &Row, other_col: ColId) -> bool
    ensures { IsTrue result ↔ (cell_of row.now col ≡ cell_of other.now other_col) }
{
    match (
        row.cells.get(col.index as usize),
        other.cells.get(other_col.index as usize),
    ) {
        (Some(one), Some(two)) => is_same(one, two),
        (Some(one), None) => is_null(one),
        (None, Some(two)) => is_null(two),
        (None, None) => true,
    }
}

fn is_same(one: &Value, other: &Value) -> bool
    ensures { IsTrue result ↔ (one.now ≡ other.now) }
{
    one == other
}

/// Whether two rows hold the same in these columns, one by one.
pub fn have_same_cells(row: &Row, cols: &[ColId], other: &Row, other_cols: &[ColId]) -> bool
    ensures { IsTrue result ↔ (cells_of row.now cols.now ≡ cells_of other.now other_cols.now) }
{
    if cols.len() != other_cols.len() {
        return false;
    }
    for place in 0..cols.len() {
        if !is_same_cell(row, cols[place], other, other_cols[place]) {
            return false;
        }
    }
    true
}

/// Whether the row refers by the foreign key: none of the key's columns is null.
pub fn refers(key: &ForeignKey, row: &Row) -> bool
    ensures { IsTrue result ↔ Refers key.now row.now }
{
    let cols = key.from_cols.as_slice();
    for col in cols {
        if is_null_at(row, *col) {
            return false;
        }
    }
    true
}
