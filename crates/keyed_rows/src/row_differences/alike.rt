ghost use Rattle.std.specs.Prelude.{◌≡◌, ◌↔◌, ◌<◌, All, IsTrue, length};
ghost use Rattle.edm_types.specs.Rows.{cells_of};
ghost use Rattle.cells.specs.Cells.{is_free_in};
ghost use Rattle.keyed_rows.specs.row_differences.Alike.{AreAlike, IsAlike};
ghost use Rattle.table_files.specs.InOrder.{lent_rows};

use crate::row_differences::comparing::cells_differ;
use cells::Cells;
use edm_types::{Row, Table};
use emc_base::{ColId, TableId, compare};
use table_files::KeyOrder;

// Whether the rows of a table and those of the fresh one are alike, one beside the other.
pub(super) fn are_alike(
    cells: &Cells,
    id: TableId,
    table: &Table,
    held: &KeyOrder<'_>,
    demanded: &KeyOrder<'_>,
) -> bool
    requires shape { All (λ row. length row.cells ≡ length table.now.cols) (lent_rows held.now) }
    requires demanded_shape { All (λ row. length row.cells ≡ length table.now.cols) (lent_rows demanded.now) }
    requires within { All (λ col. col.index < length table.now.cols) table.now.key }
    ensures { IsTrue result ↔ AreAlike (is_free_in cells.now id) table.now (lent_rows held.now) (lent_rows demanded.now) }
{
    if held.len() != demanded.len() {
        return false;
    }
    for i in 0..held.len() {
        if !is_alike(cells, id, table, held.row(i), demanded.row(i)) {
            return false;
        }
    }
    true
}

// Whether two rows have one key, and the same values in each column that isn't free.
fn is_alike(cells: &Cells, id: TableId, table: &Table, held: &Row, demanded: &Row) -> bool
    requires shape { length held.now.cells ≡ length table.now.cols }
    requires demanded_shape { length demanded.now.cells ≡ length table.now.cols }
    requires within { All (λ col. col.index < length table.now.cols) table.now.key }
    ensures { IsTrue result ↔ IsAlike (is_free_in cells.now id) table.now held.now demanded.now }
{
    has_same_cells(held, demanded, table.key.as_slice())
        && !cells_differ(cells, id, table, held, demanded)
}

// Whether two rows hold the same values in some columns.
fn has_same_cells(one: &Row, other: &Row, cols: &[ColId]) -> bool
    requires within { All (λ col. col.index < length one.now.cells) cols.now }
    requires other_within { All (λ col. col.index < length other.now.cells) cols.now }
    ensures { IsTrue result ↔ (cells_of one.now cols.now ≡ cells_of other.now cols.now) }
{
    for col in cols {
        let index = col.index as usize;
        if compare(one.cells.at(index), other.cells.at(index)).is_ne() {
            return false;
        }
    }
    true
}
