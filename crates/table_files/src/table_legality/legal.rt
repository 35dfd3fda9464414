ghost use Rattle.std.specs.Prelude.{◌≡◌, ◌↔◌, ◌<◌, All, Any, IsTrue, length};
ghost use Rattle.round_trip.specs.Words.{AreTables, AreLegalTables, AreLegalRows, cells_of, row_key};
ghost use Rattle.entity_state.specs.breach_order.Repeats.{IsRepeat};
ghost use Rattle.table_files.specs.table_legality.Cells.{FitsColumns};
ghost use Rattle.table_files.specs.table_legality.References.{IsKept, KeepsAmong};
ghost use Rattle.table_files.specs.table_legality.Tells.{HaveLegalRows, RowsApart};

use crate::table_legality::cells::{broken_rule, have_same_cells, refers};
use crate::table_legality::rows::rows_at;
use edm_types::{ForeignKey, Row, StoreModel, Table};
use emc_base::Seq;

/// Whether the tables are legal. It takes no memory, and its time grows with the square of the number of rows.
pub fn is_legal(tables: &[Seq<Row>], store: &StoreModel) -> bool
    requires { AreTables store.now tables.now }
    ensures { IsTrue result ↔ AreLegalTables store.now tables.now }
{
    keep_rules(tables, store.tables.as_slice(), store.keys.as_slice())
}

// B1 to B4 of these tables and foreign keys.
fn keep_rules(tables: &[Seq<Row>], declared: &[Table], keys: &[ForeignKey]) -> bool
    ensures { IsTrue result ↔ (HaveLegalRows declared.now tables.now × All (IsKept tables.now) keys.now) }
{
    have_legal_rows(tables, declared) && keep_keys(tables, keys)
}

// B1 to B3, table by table.
fn have_legal_rows(tables: &[Seq<Row>], declared: &[Table]) -> bool
    ensures { IsTrue result ↔ HaveLegalRows declared.now tables.now }
{
    for (t, table) in declared.iter().enumerate() {
        if !are_legal_rows(table, rows_at(tables, t)) {
            return false;
        }
    }
    true
}

fn are_legal_rows(table: &Table, rows: &[Row]) -> bool
    ensures { IsTrue result ↔ AreLegalRows table.now rows.now }
{
    keep_row_rules(table, rows)
}

fn keep_row_rules(table: &Table, rows: &[Row]) -> bool
    ensures { IsTrue result ↔ (All (FitsColumns table.now) rows.now × RowsApart table.now rows.now) }
{
    fit_table(table, rows) && are_apart(table, rows)
}

// B1 and B2, row by row.
fn fit_table(table: &Table, rows: &[Row]) -> bool
    ensures { IsTrue result ↔ All (FitsColumns table.now) rows.now }
{
    rows.iter().all(|row| fits_table(table, row))
}

fn fits_table(table: &Table, row: &Row) -> bool
    ensures { IsTrue result ↔ FitsColumns table.now row.now }
{
    let columns = table.cols.as_slice();
    for (j, column) in columns.iter().enumerate() {
        if broken_rule(row, j, column).is_some() {
            return false;
        }
    }
    true
}

// B3: no row has the key of one before it.
fn are_apart(table: &Table, rows: &[Row]) -> bool
    ensures { IsTrue result ↔ RowsApart table.now rows.now }
{
    for i in 0..rows.len() {
        if repeats(table, rows, i) {
            return false;
        }
    }
    true
}

// Whether the row has the primary key of one before it.
fn repeats(table: &Table, rows: &[Row], i: usize) -> bool
    requires { i < length rows.now }
    ensures { IsTrue result ↔ IsRepeat (λ one other. row_key table.now one ≡ row_key table.now other) rows.now i }
{
    let cols = table.key.as_slice();
    for k in 0..i {
        if have_same_cells(&rows[k], cols, &rows[i], cols) {
            return true;
        }
    }
    false
}

// B4, key by key.
fn keep_keys(tables: &[Seq<Row>], keys: &[ForeignKey]) -> bool
    ensures { IsTrue result ↔ All (IsKept tables.now) keys.now }
{
    for key in keys {
        if !keep_key(tables, key) {
            return false;
        }
    }
    true
}

fn keep_key(tables: &[Seq<Row>], key: &ForeignKey) -> bool
    ensures { IsTrue result ↔ IsKept tables.now key.now }
{
    let rows = rows_at(tables, key.from.index as usize);
    let targets = rows_at(tables, key.to.index as usize);
    keep_one(targets, key, rows)
}

fn keep_one(targets: &[Row], key: &ForeignKey, rows: &[Row]) -> bool
    ensures { IsTrue result ↔ All (KeepsAmong targets.now key.now) rows.now }
{
    rows.iter().all(|row| keeps_key(targets, key, row))
}

fn keeps_key(targets: &[Row], key: &ForeignKey, row: &Row) -> bool
    ensures { IsTrue result ↔ KeepsAmong targets.now key.now row.now }
{
    !refers(key, row) || finds_row(targets, key, row)
}

// Whether one of these rows has, in the columns that the key points to, what the row has in the key's.
fn finds_row(targets: &[Row], key: &ForeignKey, row: &Row) -> bool
    ensures { IsTrue result ↔ Any (λ target. cells_of target key.now.to_cols ≡ cells_of row.now key.now.from_cols) targets.now }
{
    let from = key.from_cols.as_slice();
    let to = key.to_cols.as_slice();
    targets
        .iter()
        .any(|target| have_same_cells(target, to, row, from))
}
