ghost use Rattle.std.specs.Prelude.{◌≡◌, ◌<◌, ◌++◌, IfOk, length, map, reverse};
ghost use Rattle.std.specs.List.{enumerate_from};
ghost use Rattle.entity_changes.specs.making.Fates.{behind_at, survivors};
ghost use Rattle.delta_plan.specs.Running.{row_spot, rows_left};

use crate::running::row_spots::row_spot;
use edm_types::{Row, StoreModel};
use emc_base::{Memory, Seq, TableId, narrow};
use entity_changes::Fates;
use std::alloc::Global;

/// What becomes of the rows of each table. `Memory` comes where memory ran out.
pub(super) fn row_lists<'t>(
    alloc: Global,
    store: &StoreModel,
    fates: &Fates<'t, Row>,
    lists: &'t [Seq<Row>],
) -> Result<Vec<Seq<Row>>, Memory>
    requires { length lists.now ≡ length fates.now.behind.items }
    ensures { IfOk result (λ made. made.items ≡ map (rows_left store.now fates.now) (enumerate_from 0 lists.now)) }
{
    let mut made = Vec::new(alloc);
    for (place, list) in lists.iter().enumerate() {
        let table = TableId {
            index: narrow(place)?,
        };
        let mut rows = Seq::empty(alloc);
        add_rows(alloc, store, &mut rows, fates, table, list.as_slice())?;
        add_new_rows(alloc, &mut rows, fates, place)?;
        made.push(rows)?;
    }
    Ok(made)
}

// Adds what becomes of the rows of a table.
fn add_rows<'t>(
    alloc: Global,
    store: &StoreModel,
    items: &mut Seq<Row>,
    fates: &Fates<'t, Row>,
    table: TableId,
    rows: &'t [Row],
) -> Result<(), Memory>
    ensures { IfOk result (λ _. items.new ≡ items.old ++ survivors fates.now (row_spot store.now table) rows.now) }
{
    for row in rows {
        let spot = row_spot(alloc, store, table, row)?;
        if let Some(kept) = fates.survivor(&spot, row) {
            items.push(copied_row(alloc, kept)?)?;
        }
    }
    Ok(())
}

// Adds those that stand behind them.
fn add_new_rows<'t>(
    alloc: Global,
    items: &mut Seq<Row>,
    fates: &Fates<'t, Row>,
    place: usize,
) -> Result<(), Memory>
    requires { place < length fates.now.behind.items }
    ensures { IfOk result (λ _. items.new ≡ items.old ++ reverse (behind_at fates.now place)) }
{
    for row in fates.behind(place).iter().rev() {
        items.push(copied_row(alloc, *row)?)?;
    }
    Ok(())
}

// A copy of a row.
fn copied_row(alloc: Global, row: &Row) -> Result<Row, Memory>
    ensures { IfOk result (λ copy. copy ≡ row.now) }
{
    let cells = row.cells.copy(alloc)?;
    Ok(Row { cells })
}
