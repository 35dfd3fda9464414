ghost use Rattle.std.specs.Prelude.{◌≡◌, ◌<◌, List, [], All, IfOk, length, map};
ghost use Rattle.std.specs.Option.{option_copied};
ghost use Rattle.edm_types.specs.Rows.{AreTables};
ghost use Rattle.emc_base.specs.Lists.{At};
ghost use Rattle.round_trip.specs.Words.{Row, place_at, rows_in};
ghost use Rattle.cells.specs.Cells.{is_free_in};
ghost use Rattle.table_files.specs.InOrder.{AreToldApartBy, lent_rows};
ghost use Rattle.keyed_rows.specs.row_differences.Differences.{TellsDifference};
ghost use Rattle.keyed_rows.specs.row_differences.InTable.{IsDifferenceOf, TellsInTable, TellsOfGroup};
ghost use Rattle.keyed_rows.specs.row_differences.Sides.{AreRowGroups};
ghost use Rattle.keyed_rows.specs.row_differences.SameButFree.{HasKeysWithin, HaveNullFreeCells, HaveRowsApart};

use crate::row_differences::alike::are_alike;
use crate::row_differences::comparing::rows_differ;
use crate::row_differences::copies::{copied_key, copied_row};
use crate::row_differences::sides::{Side, SidedRow, row_groups, row_of};
use crate::row_groups::KeyGroup;
use cells::Cells;
use edm_types::{Row, StoreModel, Table};
use emc_base::{Memory, Place, TableId, Txt, Value};
use std::alloc::Global;
use table_files::{KeyOrder, Tables};

/// A row in which tables differ.
#[derive(Drop)]
pub struct Difference {
    /// The table's name and the row's key.
    pub place: Place,
    /// The row that is held; `None` where there is none.
    pub held: Option<Row>,
    /// The row that is demanded; `None` where there is none.
    pub demanded: Option<Row>,
}

/// The first row in which tables differ from fresh ones, but for what free cells hold: by the order of tables, and in a table by the
/// order of keys. `None` says that there is none: the tables are the fresh ones but for what free cells hold. `Memory` comes where
/// memory ran out.
pub fn first_difference(
    alloc: Global,
    store: &StoreModel,
    cells: &Cells,
    tables: &Tables,
    fresh: &Tables,
) -> Result<Option<Difference>, Memory>
    requires tables { AreTables store.now tables.now }
    requires fresh { AreTables store.now fresh.now }
    requires within { HasKeysWithin store.now }
    requires keys { HaveRowsApart store.now tables.now }
    requires fresh_keys { HaveRowsApart store.now fresh.now }
    requires fresh_nulls { HaveNullFreeCells (is_free_in cells.now) fresh.now }
    ensures { IfOk result (TellsDifference store.now (is_free_in cells.now) tables.now fresh.now) }
{
    for index in 0..store.tables.len() {
        let id = TableId {
            index: index as u32,
        };
        let table = store.tables.at(index);
        let found = difference_in(alloc, store, cells, tables, fresh, id, table)?;
        if found.is_some() {
            return Ok(found);
        }
    }
    Ok(None)
}

// The first row in which a table differs from the fresh one, by the order of keys.
fn difference_in(
    alloc: Global,
    store: &StoreModel,
    cells: &Cells,
    tables: &Tables,
    fresh: &Tables,
    id: TableId,
    table: &Table,
) -> Result<Option<Difference>, Memory>
    requires tables { AreTables store.now tables.now }
    requires fresh { AreTables store.now fresh.now }
    requires within { HasKeysWithin store.now }
    requires keys { HaveRowsApart store.now tables.now }
    requires fresh_keys { HaveRowsApart store.now fresh.now }
    requires table { At store.now.tables id.index table.now }
    ensures { IfOk result (TellsInTable (is_free_in cells.now id) table.now (rows_in tables.now id) (rows_in fresh.now id)) }
{
    let held = KeyOrder::of(alloc, store, tables, id, &table.key)?;
    let demanded = KeyOrder::of(alloc, store, fresh, id, &table.key)?;
    first_in_table(alloc, cells, id, table, &held, &demanded)
}

// The first row in which a table differs from the fresh one. The rows are compared side by side first; they are grouped by their keys only where some pair isn't alike.
fn first_in_table(
    alloc: Global,
    cells: &Cells,
    id: TableId,
    table: &Table,
    held: &KeyOrder<'_>,
    demanded: &KeyOrder<'_>,
) -> Result<Option<Difference>, Memory>
    requires shape { All (λ row. length row.cells ≡ length table.now.cols) (lent_rows held.now) }
    requires demanded_shape { All (λ row. length row.cells ≡ length table.now.cols) (lent_rows demanded.now) }
    requires within { All (λ col. col.index < length table.now.cols) table.now.key }
    requires apart { AreToldApartBy table.now.key (lent_rows held.now) }
    requires demanded_apart { AreToldApartBy table.now.key (lent_rows demanded.now) }
    ensures { IfOk result (TellsInTable (is_free_in cells.now id) table.now (lent_rows held.now) (lent_rows demanded.now)) }
{
    if are_alike(cells, id, table, held, demanded) {
        return Ok(None);
    }
    let groups = row_groups(alloc, table.key.as_slice(), held, demanded)?;
    let found = first_of_groups(alloc, cells, id, table, groups.as_slice());
    drop(groups);
    found
}

// The rows of the first of these keys whose rows differ.
fn first_of_groups(
    alloc: Global,
    cells: &Cells,
    id: TableId,
    table: &Table,
    groups: &[KeyGroup<'_, SidedRow<'_>>],
) -> Result<Option<Difference>, Memory>
    requires { All (λ group. All (λ one. length one.row.now.cells ≡ length table.now.cols) group.items.items) groups.now }
    ensures { IfOk result (λ found. (held demanded : List Row) → AreToldApartBy table.now.key held → AreToldApartBy table.now.key demanded
        → AreRowGroups table.now.key held demanded groups.now → TellsInTable (is_free_in cells.now id) table.now held demanded found) }
{
    for group in groups {
        let found = of_group(alloc, cells, id, table, group)?;
        if found.is_some() {
            return Ok(found);
        }
    }
    Ok(None)
}

// The rows of a key, if they differ.
fn of_group(
    alloc: Global,
    cells: &Cells,
    id: TableId,
    table: &Table,
    group: &KeyGroup<'_, SidedRow<'_>>,
) -> Result<Option<Difference>, Memory>
    requires { All (λ one. length one.row.now.cells ≡ length table.now.cols) group.now.items.items }
    ensures { IfOk result (TellsOfGroup (is_free_in cells.now id) table.now group.now) }
{
    let held = row_of(group.items.as_slice(), Side::Held);
    let demanded = row_of(group.items.as_slice(), Side::Demanded);
    if !rows_differ(cells, id, table, held, demanded) {
        return Ok(None);
    }
    let found = difference_of(alloc, table, group.key.as_slice(), held, demanded)?;
    Ok(Some(found))
}

// These rows, at their place.
fn difference_of(
    alloc: Global,
    table: &Table,
    key: &[&Value],
    held: Option<&Row>,
    demanded: Option<&Row>,
) -> Result<Difference, Memory>
    ensures { IfOk result (IsDifferenceOf table.now (map (λ cell. cell.now) key.now) (option_copied held.entry) (option_copied demanded.entry)) }
{
    let place = place_of(alloc, table, key)?;
    let held = copied_row(alloc, held)?;
    let demanded = copied_row(alloc, demanded)?;
    Ok(Difference {
        place,
        held,
        demanded,
    })
}

// The place of the rows of a table at a key.
fn place_of(alloc: Global, table: &Table, key: &[&Value]) -> Result<Place, Memory>
    ensures { IfOk result (λ place. place ≡ place_at table.now.name (map (λ cell. cell.now) key.now) []) }
{
    let name = table.name.copy(alloc)?;
    let key = copied_key(alloc, key)?;
    let part = Txt::of(alloc, "")?;
    Ok(Place { name, key, part })
}
