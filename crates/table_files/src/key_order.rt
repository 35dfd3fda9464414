ghost use Rattle.std.specs.Prelude.{◌≡◌, ◌<◌, All, Contains, IfOk, length, map};
ghost use Rattle.emc_base.specs.Lists.{At};
ghost use Rattle.edm_types.specs.Rows.{rows_in};
ghost use Rattle.round_trip.specs.Demand.{key_columns};
ghost use Rattle.table_files.specs.InOrder.{AreToldApartBy, IsInOrderOf, IsKeyOrder, lent_rows};

use crate::sort_entry::{rows_of, sorted_entries};
use crate::tables::Tables;
use edm_types::{Row, StoreModel};
use emc_base::{ColId, Memory, Seq, TableId};
use std::alloc::Global;

/// The rows of a table, lent in the order of their cells in the columns of its primary key, which may be taken in any order.
#[derive(Drop)]
pub struct KeyOrder<'t> {
    rows: Vec<&'t Row>,
}

impl<'t> KeyOrder<'t> {
    /// Orders the rows of a table by some columns, which tell them apart: each column of the primary key is among them. `Memory`
    /// comes where memory ran out.
    pub fn of(
        alloc: Global,
        store: &StoreModel,
        tables: &'t Tables,
        table: TableId,
        order: &Seq<ColId>,
    ) -> Result<KeyOrder<'t>, Memory>
        requires within { table.index < length tables.now }
        requires names { All (Contains order.now) (key_columns store.now table) }
        requires apart { AreToldApartBy (key_columns store.now table) (rows_in tables.now table) }
        ensures { IfOk result (IsKeyOrder tables.now table order.now) }
    {
        let _store = store;
        let rows = rows_in_order(alloc, tables.rows(table).as_slice(), order.as_slice())?;
        Ok(KeyOrder { rows })
    }

    /// How many rows there are.
    pub fn len(&self) -> usize
        ensures { result ≡ length (lent_rows self.now) }
    {
        self.rows.len()
    }

    /// The row at a place, counted from 0.
    pub fn row(&self, i: usize) -> &'t Row
        requires { i < length (lent_rows self.now) }
        ensures { At (lent_rows self.now) i result.now }
    {
        self.rows[i]
    }
}

// Lends rows in the order of their cells in some columns.
pub(crate) fn rows_in_order<'t>(
    alloc: Global,
    rows: &'t [Row],
    cols: &[ColId],
) -> Result<Vec<&'t Row>, Memory>
    ensures { IfOk result (λ sorted. IsInOrderOf cols.now rows.now (map (λ row. row.now) sorted.items)) }
{
    let sorted = sorted_entries(alloc, rows, cols)?;
    let rows = rows_of(alloc, sorted.as_slice())?;
    Ok(rows)
}
