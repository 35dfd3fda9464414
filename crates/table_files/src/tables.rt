ghost use Rattle.std.specs.Prelude.{◌≡◌, ◌<◌, ◌∷◌, ◌++◌, [], IfOk, OnErr, OnOk, length, map};
ghost use Rattle.edm_types.specs.Rows.{rows_in};
ghost use Rattle.std.specs.Option.{option_copied};
ghost use Rattle.round_trip.specs.Demand.{key_columns};
ghost use Rattle.table_files.specs.Lists.{HasKey, IsFirstOf, with_row};

use crate::cells::has_cells;
use edm_types::{Row, StoreModel};
use emc_base::{ColId, Key, Memory, Seq, TableId};
use std::alloc::Global;
use std::marker::Model;

/// Tables, which contracts see as the rows of each table, in the order of the store's tables.
#[derive(Drop)]
pub struct Tables {
    rows: Vec<Seq<Row>>,
}

impl Model for Tables {
    ghost use Rattle.std.specs.Coded.{coded_list};
    ghost use Rattle.edm_types.specs.Rows.{Tables as RowsOfEach};
    ghost use Rattle.edm_types.specs.declared.data.Row.{Row};
    ghost use Rattle.std.specs.Prelude.{List};

    ghost Value = { List (List Row) };

    ghost view = { λ s. s.rows.items };
}

/// A row, and the table in which it stands.
#[derive(Drop)]
pub struct TableRow {
    /// The table.
    pub table: TableId,
    /// The row.
    pub row: Row,
}

impl Tables {
    /// The tables of a store, without a row. `Memory` comes where memory ran out.
    pub fn empty(alloc: Global, store: &StoreModel) -> Result<Tables, Memory>
        ensures { IfOk result (λ tables. tables ≡ map (λ _. []) store.now.tables) }
    {
        let mut rows = Vec::new(alloc);
        for _ in store.tables.as_slice() {
            rows.push(Seq::empty(alloc))?;
        }
        Ok(Tables { rows })
    }

    /// The tables of these lists: the rows of each table, in the order of the store's tables.
    pub fn of_lists(rows: Vec<Seq<Row>>) -> Tables
        ensures { result ≡ rows.items }
    {
        Tables { rows }
    }

    /// Adds a row behind those of its table. `Memory` comes where memory ran out, and then nothing has changed.
    pub fn insert(&mut self, table: TableId, row: Row) -> Result<(), Memory>
        requires { table.index < length self.old }
        ensures ok { OnOk result (self.new ≡ with_row self.old table row) }
        ensures err { OnErr result (self.new ≡ self.old) }
    {
        self.rows[table.index as usize].push(row)
    }

    /// The rows of a table, in their order.
    pub fn rows(&self, table: TableId) -> &Seq<Row>
        requires { table.index < length self.now }
        ensures { result.now ≡ rows_in self.now table }
    {
        &self.rows[table.index as usize]
    }

    /// The first row of a table with this primary key; `None` exactly where none has it.
    pub fn row(&self, store: &StoreModel, table: TableId, key: &Key) -> Option<&Row>
        requires { table.index < length self.now }
        ensures { IsFirstOf (HasKey store.now table key.now) (rows_in self.now table) (option_copied result) }
    {
        let cols = key_columns(store, table);
        let rows = self.rows(table).as_slice();
        for row in rows {
            if has_cells(row, cols, key.as_slice()) {
                return Some(row);
            }
        }
        None
    }

    /// The rows of each table, in the order of the store's tables.
    pub fn as_slice(&self) -> &[Seq<Row>]
        ensures { result.now ≡ self.now }
    {
        self.rows.as_slice()
    }
}

// The columns of a table's primary key.
fn key_columns(store: &StoreModel, table: TableId) -> &[ColId]
    ensures { result.now ≡ key_columns store.now table }
{
    match store.tables.get(table.index as usize) {
        Some(declared) => declared.key.as_slice(),
        None => &[],
    }
}
