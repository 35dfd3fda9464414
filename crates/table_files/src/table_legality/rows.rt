ghost use Rattle.std.specs.Prelude.{◌≡◌, IfOk, map};
ghost use Rattle.round_trip.specs.Words.{cell_of, cells_of, place_at, row_key, rows_in};

use edm_types::{Row, Table};
use emc_base::{ColId, Key, Memory, Place, Seq, Txt, Value};
use std::alloc::Global;

/// The rows of a table; none where there is no list for it.
pub fn rows_at(tables: &[Seq<Row>], table: usize) -> &[Row]
    ensures { result.now ≡ rows_in tables.now (record { index = table }) }
{
    match tables.get(table) {
        Some(rows) => rows.as_slice(),
        None => &[],
    }
}

/// A row's cell of a column; null where the row has none.
pub fn cell_of(alloc: Global, row: &Row, col: ColId) -> Result<Value, Memory>
    ensures { IfOk result (λ value. value ≡ cell_of row.now col) }
{
    match row.cells.get(col.index as usize) {
        Some(value) => value.copy(alloc),
        None => Ok(Value::Null),
    }
}

/// A row's cells of several columns.
pub fn cells_of(alloc: Global, row: &Row, cols: &[ColId]) -> Result<Key, Memory>
    ensures { IfOk result (λ cells. cells ≡ cells_of row.now cols.now) }
{
    let mut cells = Seq::empty(alloc);
    for col in cols {
        let value = cell_of(alloc, row, *col)?;
        cells.push(value)?;
    }
    Ok(cells)
}

/// The primary keys of rows, in their order.
pub fn keys_of(alloc: Global, table: &Table, rows: &[Row]) -> Result<Vec<Key>, Memory>
    ensures { IfOk result (λ keys. keys.items ≡ map (row_key table.now) rows.now) }
{
    let mut keys = Vec::new(alloc);
    for row in rows {
        let key = cells_of(alloc, row, table.key.as_slice())?;
        keys.push(key)?;
    }
    Ok(keys)
}

/// The place of a row's part in its table.
pub fn place_of(alloc: Global, table: &Table, row: &Row, part: &Txt) -> Result<Place, Memory>
    ensures { IfOk result (λ place. place ≡ place_at table.now.name (row_key table.now row.now) part.now) }
{
    Ok(Place {
        name: table.name.copy(alloc)?,
        key: cells_of(alloc, row, table.key.as_slice())?,
        part: part.copy(alloc)?,
    })
}
