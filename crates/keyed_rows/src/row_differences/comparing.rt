ghost use Rattle.std.specs.Prelude.{◌≡◌, ◌↔◌, ◌<◌, IsTrue, length};
ghost use Rattle.std.specs.Option.{option_copied};
ghost use Rattle.cells.specs.Cells.{is_free_in};
ghost use Rattle.keyed_rows.specs.row_differences.Differences.{DiffersIn, HasDifferentCell, RowsDiffer};
ghost use Rattle.keyed_rows.specs.row_differences.InTable.{IsAsLong};

use cells::Cells;
use edm_types::{Row, Table};
use emc_base::{ColId, TableId, compare};

// Whether rows hold different values in a column that isn't free.
fn cell_differs(cells: &Cells, id: TableId, col: ColId, held: &Row, demanded: &Row) -> bool
    requires within { col.index < length held.now.cells }
    requires demanded_within { col.index < length demanded.now.cells }
    ensures { IsTrue result ↔ DiffersIn (is_free_in cells.now id) held.now demanded.now col }
{
    if cells.is_free(id, col) {
        return false;
    }
    let index = col.index as usize;
    compare(held.cells.at(index), demanded.cells.at(index)).is_ne()
}

// Whether rows hold different values in a column of their table that isn't free.
pub(super) fn cells_differ(
    cells: &Cells,
    id: TableId,
    table: &Table,
    held: &Row,
    demanded: &Row,
) -> bool
    requires shape { length held.now.cells ≡ length table.now.cols }
    requires demanded_shape { length demanded.now.cells ≡ length table.now.cols }
    ensures { IsTrue result ↔ HasDifferentCell (is_free_in cells.now id) table.now held.now demanded.now }
{
    for index in 0..table.cols.len() {
        let col = ColId {
            index: index as u32,
        };
        if cell_differs(cells, id, col, held, demanded) {
            return true;
        }
    }
    false
}

// Whether only one of two rows is there, or a cell that isn't free differs.
pub(super) fn rows_differ(
    cells: &Cells,
    id: TableId,
    table: &Table,
    held: Option<&Row>,
    demanded: Option<&Row>,
) -> bool
    requires shape { IsAsLong table.now (option_copied held) }
    requires demanded_shape { IsAsLong table.now (option_copied demanded) }
    ensures { IsTrue result ↔ RowsDiffer (is_free_in cells.now id) table.now (option_copied held.entry) (option_copied demanded.entry) }
{
    match (held, demanded) {
        (None, None) => false,
        (Some(one), Some(other)) => cells_differ(cells, id, table, one, other),
        _ => true,
    }
}
