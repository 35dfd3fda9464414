ghost use Rattle.std.specs.Prelude.{◌≡◌, ◌++◌, IfOk};
ghost use Rattle.std.specs.List.{flat_map};
ghost use Rattle.delta_plan.specs.Keeping.{Free};
ghost use Rattle.cells.specs.Cells.{is_free_in};
ghost use Rattle.row_plans.specs.Plans.{AreKeyed};
ghost use Rattle.delta_plan.specs.Keeping.{AreHeldRows, AreKeptRows, AreRowsOf, HoldsHeld, HoldsKept, held_of, kept_cell, kept_cells, kept_of};

use cells::Cells;
use edm_types::{Row, StoreModel, Table};
use emc_base::{ColId, Memory, Seq, TableId, Value};
use keyed_rows::KeyGroup;
use row_plans::{Side, SidedRow, row_groups, row_of};
use std::alloc::Global;
use table_files::Tables;

/// The rows of tables that have the key of a row of others, in the order of keys.
pub(crate) fn held_rows(
    alloc: Global,
    store: &StoreModel,
    tables: &Tables,
    wanted: &Tables,
) -> Result<Tables, Memory>
    requires { AreKeyed store.now tables.now wanted.now }
    ensures { IfOk result (HoldsHeld store.now tables.now wanted.now) }
{
    let mut lists = Vec::new(alloc);
    for index in 0..store.tables.len() {
        let id = TableId {
            index: index as u32,
        };
        let table = store.tables.at(index);
        let rows = held_in(
            alloc,
            table,
            tables.rows(id).as_slice(),
            wanted.rows(id).as_slice(),
        )?;
        lists.push(rows)?;
    }
    Ok(Tables::of_lists(lists))
}

// The rows of a table that have the key of a wanted one.
fn held_in(alloc: Global, table: &Table, old: &[Row], wanted: &[Row]) -> Result<Seq<Row>, Memory>
    requires { AreRowsOf table.now old.now wanted.now }
    ensures { IfOk result (AreHeldRows table.now.key old.now wanted.now) }
{
    if wanted.is_empty() {
        return Ok(Seq::empty(alloc));
    }
    let groups = row_groups(alloc, table.key.as_slice(), old, wanted)?;
    let rows = held_in_groups(alloc, groups.as_slice())?;
    Ok(rows)
}

// The rows of these keys, where one is wanted.
fn held_in_groups(alloc: Global, groups: &[KeyGroup<'_, SidedRow<'_>>]) -> Result<Seq<Row>, Memory>
    ensures { IfOk result (λ rows. rows ≡ flat_map held_of groups.now) }
{
    let mut rows = Seq::empty(alloc);
    for group in groups {
        add_held(alloc, group, &mut rows)?;
    }
    Ok(rows)
}

// Adds the row of a key, where one is wanted.
fn add_held(
    alloc: Global,
    group: &KeyGroup<'_, SidedRow<'_>>,
    rows: &mut Seq<Row>,
) -> Result<(), Memory>
    ensures { IfOk result (λ _. rows.new ≡ rows.old ++ held_of group.now) }
{
    let items = group.items.as_slice();
    if row_of(items, Side::Afterwards).is_none() {
        return Ok(());
    }
    if let Some(row) = row_of(items, Side::Before) {
        rows.push(copied(alloc, row)?)?;
    }
    Ok(())
}

/// The rows of fresh tables, in the order of keys; in the free cells of a row whose key has a row in the tables stands what this holds there.
pub(crate) fn kept_rows(
    alloc: Global,
    store: &StoreModel,
    cells: &Cells,
    tables: &Tables,
    fresh: &Tables,
) -> Result<Tables, Memory>
    requires { AreKeyed store.now tables.now fresh.now }
    ensures { IfOk result (HoldsKept store.now cells.now tables.now fresh.now) }
{
    let mut lists = Vec::new(alloc);
    for index in 0..store.tables.len() {
        let id = TableId {
            index: index as u32,
        };
        let table = store.tables.at(index);
        let rows = kept_in(
            alloc,
            cells,
            id,
            table,
            tables.rows(id).as_slice(),
            fresh.rows(id).as_slice(),
        )?;
        lists.push(rows)?;
    }
    Ok(Tables::of_lists(lists))
}

// The rows of a fresh table.
fn kept_in(
    alloc: Global,
    cells: &Cells,
    id: TableId,
    table: &Table,
    old: &[Row],
    fresh: &[Row],
) -> Result<Seq<Row>, Memory>
    requires { AreRowsOf table.now old.now fresh.now }
    ensures { IfOk result (AreKeptRows (Free cells.now id) table.now old.now fresh.now) }
{
    if fresh.is_empty() {
        return Ok(Seq::empty(alloc));
    }
    let groups = row_groups(alloc, table.key.as_slice(), old, fresh)?;
    let rows = kept_in_groups(alloc, cells, id, groups.as_slice())?;
    Ok(rows)
}

// The fresh rows of these keys.
fn kept_in_groups(
    alloc: Global,
    cells: &Cells,
    id: TableId,
    groups: &[KeyGroup<'_, SidedRow<'_>>],
) -> Result<Seq<Row>, Memory>
    ensures { IfOk result (λ rows. rows ≡ flat_map (kept_of (is_free_in cells.now id)) groups.now) }
{
    let mut rows = Seq::empty(alloc);
    for group in groups {
        add_kept(alloc, cells, id, group, &mut rows)?;
    }
    Ok(rows)
}

// Adds the fresh row of a key, if there is one.
fn add_kept(
    alloc: Global,
    cells: &Cells,
    id: TableId,
    group: &KeyGroup<'_, SidedRow<'_>>,
    rows: &mut Seq<Row>,
) -> Result<(), Memory>
    ensures { IfOk result (λ _. rows.new ≡ rows.old ++ kept_of (is_free_in cells.now id) group.now) }
{
    let items = group.items.as_slice();
    let Some(fresh) = row_of(items, Side::Afterwards) else {
        return Ok(());
    };
    let row = match row_of(items, Side::Before) {
        Some(held) => kept_row(alloc, cells, id, held, fresh)?,
        None => copied(alloc, fresh)?,
    };
    rows.push(row)?;
    Ok(())
}

// A fresh row with the free cells of one that is held.
fn kept_row(
    alloc: Global,
    cells: &Cells,
    id: TableId,
    held: &Row,
    fresh: &Row,
) -> Result<Row, Memory>
    ensures { IfOk result (λ row. row.cells ≡ kept_cells (is_free_in cells.now id) held.now fresh.now.cells) }
{
    let mut kept = Seq::empty(alloc);
    for (index, cell) in fresh.cells.as_slice().iter().enumerate() {
        let col = ColId {
            index: index as u32,
        };
        kept.push(kept_cell(alloc, cells, id, col, held, cell)?)?;
    }
    Ok(Row { cells: kept })
}

// The cell of a fresh row, or that of the held one where it is free.
fn kept_cell(
    alloc: Global,
    cells: &Cells,
    id: TableId,
    col: ColId,
    held: &Row,
    fresh: &Value,
) -> Result<Value, Memory>
    ensures { IfOk result (λ cell. cell ≡ kept_cell (is_free_in cells.now id) held.now (col.index, fresh.now)) }
{
    if cells.is_free(id, col) {
        if let Some(cell) = held.cells.get(col.index as usize) {
            return cell.copy(alloc);
        }
    }
    fresh.copy(alloc)
}

// A copy of a row.
fn copied(alloc: Global, row: &Row) -> Result<Row, Memory>
    ensures { IfOk result (λ copy. copy ≡ row.now) }
{
    Ok(Row {
        cells: row.cells.copy(alloc)?,
    })
}
