ghost use Rattle.std.specs.Prelude.{◌≡◌, IfOk};
ghost use Rattle.round_trip.specs.Words.{cell_of, key_columns};
ghost use Rattle.row_changes.specs.Changes.{key_in};
ghost use Rattle.delta_plan.specs.Running.{key_spot, row_spot};

use edm_types::{Row, StoreModel};
use emc_base::{ColId, Key, Memory, Seq, TableId, Value};
use entity_changes::Spot;
use std::alloc::Global;

/// The spot of a key in a table. `Memory` comes where memory ran out.
pub(super) fn key_spot(alloc: Global, table: TableId, key: &Key) -> Result<Spot, Memory>
    ensures { IfOk result (λ spot. spot ≡ key_spot table key.now) }
{
    let key = key.copy(alloc)?;
    Ok((table.index, key, Seq::empty(alloc)))
}

/// The spot of a row. `Memory` comes where memory ran out.
pub(super) fn row_spot(
    alloc: Global,
    store: &StoreModel,
    table: TableId,
    row: &Row,
) -> Result<Spot, Memory>
    ensures { IfOk result (λ spot. spot ≡ row_spot store.now table row.now) }
{
    let key = key_of(alloc, store, table, row)?;
    Ok((table.index, key, Seq::empty(alloc)))
}

// A copy of a row's key.
fn key_of(alloc: Global, store: &StoreModel, table: TableId, row: &Row) -> Result<Key, Memory>
    ensures { IfOk result (λ key. key ≡ key_in store.now table row.now) }
{
    let mut key = Seq::empty(alloc);
    for col in key_columns(store, table) {
        key.push(cell_of(alloc, row, *col)?)?;
    }
    Ok(key)
}

// The columns of a table's primary key.
fn key_columns(store: &StoreModel, table: TableId) -> &[ColId]
    ensures { result.now ≡ key_columns store.now table }
{
    match store.tables.get(table.index as usize) {
        Some(declared) => declared.key.as_slice(),
        None => &[],
    }
}

// A copy of a row's cell of a column; null where the row has none.
fn cell_of(alloc: Global, row: &Row, col: ColId) -> Result<Value, Memory>
    ensures { IfOk result (λ value. value ≡ cell_of row.now col) }
{
    match row.cells.get(col.index as usize) {
        Some(value) => value.copy(alloc),
        None => Ok(Value::Null),
    }
}
