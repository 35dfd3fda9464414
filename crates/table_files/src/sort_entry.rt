ghost use Rattle.std.specs.Prelude.{◌≡◌, All, IfOk, drop, map};
ghost use Rattle.emc_base.specs.ValueRefs.{shown_value};
ghost use Rattle.table_files.specs.Entries.{HasFirstCells, entry_cmp, first_cell};
ghost use Rattle.table_files.specs.InOrder.{IsInOrderOf};

use crate::cells::compare_rows;
use edm_types::Row;
use emc_base::{ColId, Memory, ValueRef};
use std::alloc::Global;
use std::cmp::Ordering;

// A lent row, and beside it its cells in the first two of some columns: most rows are told apart by these, without a look at the rows, which lie apart in
// memory.
#[derive(Clone, Copy)]
pub(crate) struct SortEntry<'t> {
    pub first: ValueRef<'t>,
    pub second: ValueRef<'t>,
    pub row: &'t Row,
}

// Lends rows in the order of their cells in some columns, each with its cells in the first two of them.
pub(crate) fn sorted_entries<'t>(
    alloc: Global,
    rows: &'t [Row],
    cols: &[ColId],
) -> Result<Vec<SortEntry<'t>>, Memory>
    ensures order { IfOk result (λ sorted. IsInOrderOf cols.now rows.now (map (λ entry. entry.row.now) sorted.items)) }
    ensures firsts { IfOk result (λ sorted. All (HasFirstCells cols.now) sorted.items) }
{
    let mut sorted = lent_entries(alloc, rows, cols)?;
    sorted.sort_by(|one, other| compare_entries(one, other, cols))?;
    Ok(sorted)
}

// Lends rows, each with its cells in the first two of some columns.
fn lent_entries<'t>(
    alloc: Global,
    rows: &'t [Row],
    cols: &[ColId],
) -> Result<Vec<SortEntry<'t>>, Memory>
    ensures same { IfOk result (λ entries. map (λ entry. entry.row.now) entries.items ≡ rows.now) }
    ensures firsts { IfOk result (λ entries. All (HasFirstCells cols.now) entries.items) }
{
    let mut entries = Vec::with_capacity(alloc, rows.len())?;
    for row in rows {
        entries.push(entry_of(row, cols))?;
    }
    Ok(entries)
}

// A row with its cells in the first two of some columns.
fn entry_of<'t>(row: &'t Row, cols: &[ColId]) -> SortEntry<'t>
    ensures same { result.row.now ≡ row.now }
    ensures firsts { HasFirstCells cols.now result }
{
    SortEntry {
        first: first_cell(row, cols),
        second: first_cell(row, after_first(cols)),
        row,
    }
}

// The columns after the first.
fn after_first(cols: &[ColId]) -> &[ColId]
    ensures { result.now ≡ drop 1 cols.now }
{
    match cols.split_first() {
        Some((_, others)) => others,
        None => &[],
    }
}

// A row's cell in the first of some columns; null where there is none.
fn first_cell<'t>(row: &'t Row, cols: &[ColId]) -> ValueRef<'t>
    ensures { shown_value result ≡ first_cell row.now cols.now }
{
    let Some(col) = cols.first() else {
        return ValueRef::Null;
    };
    match row.cells.get(col.index as usize) {
        Some(cell) => cell.lend(),
        None => ValueRef::Null,
    }
}

// The order of entries: by their first cells, by their second ones, and then by the cells of their rows in some columns.
pub(crate) fn compare_entries(
    one: &SortEntry<'_>,
    other: &SortEntry<'_>,
    cols: &[ColId],
) -> Ordering
    ensures { result ≡ entry_cmp cols.now one.now other.now }
{
    let order = one.first.compare(&other.first);
    if order.is_ne() {
        return order;
    }
    let order = one.second.compare(&other.second);
    if order.is_ne() {
        return order;
    }
    compare_rows(one.row, other.row, cols)
}

// The rows of entries.
pub(crate) fn rows_of<'t>(alloc: Global, entries: &[SortEntry<'t>]) -> Result<Vec<&'t Row>, Memory>
    ensures { IfOk result (λ rows. map (λ row. row.now) rows.items ≡ map (λ entry. entry.row.now) entries.now) }
{
    let mut rows = Vec::with_capacity(alloc, entries.len())?;
    for entry in entries {
        rows.push(entry.row)?;
    }
    Ok(rows)
}
