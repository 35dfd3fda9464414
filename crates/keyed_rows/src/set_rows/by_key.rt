ghost use Rattle.std.specs.Prelude.{◌≡◌, ◌<◌, ◌++◌, All, IfOk, length, map};
ghost use Rattle.cells.specs.Parts.{AreParts, schema_in};
ghost use Rattle.keyed_rows.specs.row_groups.Shown.{shown_group};
ghost use Rattle.round_trip.specs.Words.{AreLegalTables};
ghost use Rattle.keyed_rows.specs.set_rows.Keyed.{AddsRowsOf, AreKeyedRows, keyed_row, shown_keyed_rows};
ghost use Rattle.keyed_rows.specs.set_rows.SetRows.{AreSetRows};
ghost use Rattle.table_files.specs.InOrder.{lent_rows};

use crate::row_groups::{KeyGroup, key_groups, lent_cells};
use crate::set_rows::owning::{is_owned_by, key_order};
use case_laws::PlacedRow;
use cells::Parts;
use emc_base::{ColId, Memory, Seq, SetId, TableId, Value};
use std::alloc::Global;
use table_files::{KeyOrder, Tables};

/// The rows of the tables that an entity set owns, by the keys of its entities, in the order of these keys; those of one key in the order of tables.
/// `Memory` comes where memory ran out.
pub fn rows_by_key<'t>(
    alloc: Global,
    parts: &Parts<'_>,
    tables: &'t Tables,
    set: SetId,
) -> Result<Vec<KeyGroup<'t, PlacedRow<'t>>>, Memory>
    requires parts { AreParts parts.now }
    requires set { set.index < length parts.now.model.now.sets }
    requires legal { AreLegalTables parts.now.store.now tables.now }
    ensures { IfOk result (λ groups. AreSetRows (schema_in parts.now) tables.now set (map shown_group groups.items)) }
{
    let keyed = keyed_rows(alloc, parts, tables, set)?;
    key_groups(alloc, keyed)
}

// The rows of all tables that the set owns, in the order of tables, each with its key.
fn keyed_rows<'t>(
    alloc: Global,
    parts: &Parts<'_>,
    tables: &'t Tables,
    set: SetId,
) -> Result<Vec<(Vec<&'t Value>, PlacedRow<'t>)>, Memory>
    requires parts { AreParts parts.now }
    requires legal { AreLegalTables parts.now.store.now tables.now }
    ensures { IfOk result (λ keyed. AreKeyedRows (schema_in parts.now) tables.now set (length parts.now.store.now.tables) (shown_keyed_rows keyed.items)) }
{
    let mut keyed = Vec::new(alloc);
    for place in 0..parts.store.tables.len() {
        let table = TableId {
            index: place as u32,
        };
        add_table(alloc, &mut keyed, parts, tables, set, table)?;
    }
    Ok(keyed)
}

// Adds the rows of one table in the order of the set's keys, if the set owns it. So keys that are neighbours lie close together in memory.
fn add_table<'t>(
    alloc: Global,
    keyed: &mut Vec<(Vec<&'t Value>, PlacedRow<'t>)>,
    parts: &Parts<'_>,
    tables: &'t Tables,
    set: SetId,
    table: TableId,
) -> Result<(), Memory>
    requires parts { AreParts parts.now }
    requires legal { AreLegalTables parts.now.store.now tables.now }
    requires within { table.index < length parts.now.store.now.tables }
    ensures { IfOk result (λ _. AddsRowsOf (schema_in parts.now) tables.now set table (shown_keyed_rows keyed.old.items) (shown_keyed_rows keyed.new.items)) }
{
    if !is_owned_by(parts, table, set) {
        return Ok(());
    }
    let order = Seq::from_vec(key_order(alloc, parts, table, set)?)?;
    let rows = KeyOrder::of(alloc, parts.store, tables, table, &order)?;
    add_rows(alloc, keyed, table, &rows, order.as_slice())
}

// Adds rows of a table in their order, each with its cells in some columns.
fn add_rows<'t>(
    alloc: Global,
    keyed: &mut Vec<(Vec<&'t Value>, PlacedRow<'t>)>,
    table: TableId,
    rows: &KeyOrder<'t>,
    order: &[ColId],
) -> Result<(), Memory>
    requires { All (λ row. All (λ col. col.index < length row.cells) order.now) (lent_rows rows.now) }
    ensures { IfOk result (λ _. shown_keyed_rows keyed.new.items ≡ shown_keyed_rows keyed.old.items ++ map (keyed_row table order.now) (lent_rows rows.now)) }
{
    for i in 0..rows.len() {
        let row = rows.row(i);
        let key = lent_cells(alloc, row, order)?;
        keyed.push((key, PlacedRow { table, row }))?;
    }
    Ok(())
}
