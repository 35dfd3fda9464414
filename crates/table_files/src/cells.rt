ghost use Rattle.std.specs.Prelude.{◌≡◌, ◌↔◌, IsTrue, slice_get, unwrap_or};
ghost use Rattle.std.specs.Cmp.Lexicographic.{slice_cmp};
ghost use Rattle.emc_base.specs.Order.{value_cmp};
ghost use Rattle.edm_types.specs.Rows.{cell_of, cells_of};

use edm_types::Row;
use emc_base::{ColId, Value, compare};
use std::cmp::Ordering;

// A row's cell of a column, or this value where the row has none.
pub(crate) fn cell_or<'a>(row: &'a Row, col: ColId, default: &'a Value) -> &'a Value
    ensures { result.now ≡ unwrap_or (slice_get row.now.cells col.index) default.now }
{
    match row.cells.get(col.index as usize) {
        Some(cell) => cell,
        None => default,
    }
}

fn compare_cells(one: &Row, two: &Row, col: ColId) -> Ordering
    ensures { result ≡ value_cmp (cell_of one.now col) (cell_of two.now col) }
{
    let null = Value::Null;
    compare(cell_or(one, col, &null), cell_or(two, col, &null))
}

// The order of two rows by their cells in some columns.
pub(crate) fn compare_rows(one: &Row, two: &Row, cols: &[ColId]) -> Ordering
    ensures { result ≡ slice_cmp value_cmp (cells_of one.now cols.now) (cells_of two.now cols.now) }
{
    for col in cols {
        let order = compare_cells(one, two, *col);
        if order.is_ne() {
            return order;
        }
    }
    Ordering::Equal
}

fn has_cell(row: &Row, col: ColId, value: &Value) -> bool
    ensures { IsTrue result ↔ (cell_of row.now col ≡ value.now) }
{
    let null = Value::Null;
    compare(cell_or(row, col, &null), value).is_eq()
}

// Whether a row has these values in these columns, and there are as many.
pub(crate) fn has_cells(row: &Row, cols: &[ColId], values: &[Value]) -> bool
    ensures { IsTrue result ↔ (cells_of row.now cols.now ≡ values.now) }
{
    if cols.len() != values.len() {
        return false;
    }
    for (i, col) in cols.iter().enumerate() {
        if !has_cell(row, *col, &values[i]) {
            return false;
        }
    }
    true
}
