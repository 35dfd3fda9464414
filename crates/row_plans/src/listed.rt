ghost use Rattle.std.specs.Prelude.{◌≡◌, ◌<◌, All, IfOk, length};
ghost use Rattle.round_trip.specs.Words.{cell_of, key_columns};
ghost use Rattle.row_changes.specs.Changes.{key_in};
ghost use Rattle.row_orders.specs.Alterations.{AreChangesAt, AreChangesRound, change_of};

use edm_types::{Row, StoreModel};
use emc_base::{ColId, Key, Memory, Seq, TableId, Value};
use row_changes::RowChange;
use row_orders::Alteration;
use std::alloc::Global;

/// The changes of the alterations at some places. `Memory` comes where memory ran out.
pub(crate) fn changes_at(
    alloc: Global,
    store: &StoreModel,
    alterations: &[Alteration<'_>],
    places: &[usize],
) -> Result<Seq<RowChange>, Memory>
    requires { All (λ place. place < length alterations.now) places.now }
    ensures { IfOk result (AreChangesAt store.now alterations.now places.now) }
{
    let mut changes = Seq::empty(alloc);
    for place in places {
        changes.push(change_of(alloc, store, &alterations[*place])?)?;
    }
    Ok(changes)
}

/// The same from the last place to the first. `Memory` comes where memory ran out.
pub(crate) fn changes_round(
    alloc: Global,
    store: &StoreModel,
    alterations: &[Alteration<'_>],
    mut places: Vec<usize>,
) -> Result<Seq<RowChange>, Memory>
    requires { All (λ place. place < length alterations.now) places.items }
    ensures { IfOk result (AreChangesRound store.now alterations.now places.items) }
{
    places.reverse();
    changes_at(alloc, store, alterations, places.as_slice())
}

// The change that leads from the row before to the one afterwards.
fn change_of(
    alloc: Global,
    store: &StoreModel,
    alteration: &Alteration<'_>,
) -> Result<RowChange, Memory>
    ensures { IfOk result (λ change. change ≡ change_of store.now alteration.now) }
{
    let table = alteration.table;
    match (alteration.old, alteration.new) {
        (None, Some(new)) => Ok(RowChange::Insert(table, copied(alloc, new)?)),
        (Some(_), Some(new)) => Ok(RowChange::Update(table, copied(alloc, new)?)),
        (Some(old), None) => Ok(RowChange::Delete(table, key_of(alloc, store, table, old)?)),
        (None, None) => Ok(RowChange::Delete(table, Seq::empty(alloc))),
    }
}

// A copy of a row.
fn copied(alloc: Global, row: &Row) -> Result<Row, Memory>
    ensures { IfOk result (λ copy. copy ≡ row.now) }
{
    let cells = row.cells.copy(alloc)?;
    Ok(Row { cells })
}

// A copy of a row's key.
fn key_of(alloc: Global, store: &StoreModel, table: TableId, row: &Row) -> Result<Key, Memory>
    ensures { IfOk result (λ key. key ≡ key_in store.now table row.now) }
{
    let mut key = Seq::empty(alloc);
    for col in key_columns(store, table) {
        key.push(cell_of(alloc, row, *col)?)?;
    }
    Ok(key)
}

// The columns of a table's primary key.
fn key_columns(store: &StoreModel, table: TableId) -> &[ColId]
    ensures { result.now ≡ key_columns store.now table }
{
    match store.tables.get(table.index as usize) {
        Some(declared) => declared.key.as_slice(),
        None => &[],
    }
}

// A copy of a row's cell of a column; null where the row has none.
fn cell_of(alloc: Global, row: &Row, col: ColId) -> Result<Value, Memory>
    ensures { IfOk result (λ value. value ≡ cell_of row.now col) }
{
    match row.cells.get(col.index as usize) {
        Some(value) => value.copy(alloc),
        None => Ok(Value::Null),
    }
}
