ghost use Rattle.std.specs.Prelude.{◌≡◌, ◌<◌, All, IfOk, length};
ghost use Rattle.edm_types.specs.Rows.{cells_of};
ghost use Rattle.keyed_rows.specs.row_groups.Shown.{shown_cells};

use edm_types::Row;
use emc_base::{ColId, Memory, Value};
use std::alloc::Global;

/// A row's cells in some columns, lent. `Memory` comes where memory ran out.
pub fn lent_cells<'t>(alloc: Global, row: &'t Row, cols: &[ColId]) -> Result<Vec<&'t Value>, Memory>
    requires { All (λ col. col.index < length row.now.cells) cols.now }
    ensures { IfOk result (λ cells. shown_cells cells ≡ cells_of row.now cols.now) }
{
    let mut cells = Vec::new(alloc);
    for col in cols {
        cells.push(row.cells.at(col.index as usize))?;
    }
    Ok(cells)
}
