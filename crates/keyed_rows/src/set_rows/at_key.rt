ghost use Rattle.std.specs.Prelude.{◌≡◌, ◌<◌, ◌++◌, IfOk, length};
ghost use Rattle.std.specs.Option.{option_copied};
ghost use Rattle.case_laws.specs.candidates.Rows.{AreRowsAt, shown_rows};
ghost use Rattle.cells.specs.Parts.{AreParts, schema_in};
ghost use Rattle.round_trip.specs.Words.{AreLegalTables};
ghost use Rattle.round_trip.specs.soundness.Lookups.{set_key};
ghost use Rattle.keyed_rows.specs.set_rows.AtKey.{IsRowAt, in_table};

use crate::set_rows::owning::{is_owned_by, table_key};
use case_laws::PlacedRow;
use cells::Parts;
use edm_types::Row;
use emc_base::{Key, Memory, SetId, TableId};
use std::alloc::Global;
use table_files::Tables;

/// The rows at a key of a set, in the order of tables. `Memory` comes where memory ran out.
pub fn rows_at<'t>(
    alloc: Global,
    parts: &Parts<'_>,
    tables: &'t Tables,
    set: SetId,
    key: &Key,
) -> Result<Vec<PlacedRow<'t>>, Memory>
    requires parts { AreParts parts.now }
    requires set { set.index < length parts.now.model.now.sets }
    requires legal { AreLegalTables parts.now.store.now tables.now }
    requires whole { length key.now ≡ length (set_key parts.now.model.now set) }
    ensures { IfOk result (λ rows. AreRowsAt (schema_in parts.now) tables.now set key.now (shown_rows rows.items)) }
{
    let mut rows = Vec::new(alloc);
    for place in 0..parts.store.tables.len() {
        let table = TableId {
            index: place as u32,
        };
        let found = row_at(alloc, parts, tables, set, key, table)?;
        add_row(&mut rows, table, found)?;
    }
    Ok(rows)
}

// The row of one table, if the set owns this and a row stands at the key.
fn row_at<'t>(
    alloc: Global,
    parts: &Parts<'_>,
    tables: &'t Tables,
    set: SetId,
    key: &Key,
    table: TableId,
) -> Result<Option<&'t Row>, Memory>
    requires parts { AreParts parts.now }
    requires legal { AreLegalTables parts.now.store.now tables.now }
    requires within { table.index < length parts.now.store.now.tables }
    ensures { IfOk result (λ found. IsRowAt (schema_in parts.now) tables.now set key.now table (option_copied found)) }
{
    if !is_owned_by(parts, table, set) {
        return Ok(None);
    }
    let own = table_key(alloc, parts, table, set, key)?;
    Ok(tables.row(parts.store, table, &own))
}

// Adds a row, if there is one.
fn add_row<'t>(
    rows: &mut Vec<PlacedRow<'t>>,
    table: TableId,
    found: Option<&'t Row>,
) -> Result<(), Memory>
    ensures { IfOk result (λ _. shown_rows rows.new.items ≡ shown_rows rows.old.items ++ in_table table (option_copied found.entry)) }
{
    let Some(row) = found else {
        return Ok(());
    };
    rows.push(PlacedRow { table, row })?;
    Ok(())
}
