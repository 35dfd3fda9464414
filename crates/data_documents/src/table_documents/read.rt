ghost use Rattle.std.specs.Prelude.{◌≡◌, IfOk, map};
ghost use Rattle.edm_types.specs.Rows.{AreTables};
ghost use Rattle.json_form.specs.Nodes.{part_of};
ghost use Rattle.data_documents.specs.table_documents.Tables.{cell_in, row_in, rows_of_table, tables_in};

use crate::shape_faults::value_of_node;
use edm_types::{Column, Row, StoreModel, Table};
use emc_base::{Memory, Seq, Value};
use json_form::{Node, items_at};
use std::alloc::Global;
use table_files::Tables;

/// The tables that a node holds; null, or no rows, where it is of another shape.
pub fn tables_in(alloc: Global, store: &StoreModel, node: Node<'_>) -> Result<Tables, Memory>
    ensures tables { IfOk result (λ tables. tables ≡ tables_in store.now (part_of node.entry)) }
    ensures fit { IfOk result (AreTables store.now) }
{
    let mut tables = Vec::new(alloc);
    for table in store.tables.as_slice() {
        tables.push(rows_of_table(alloc, table, node)?)?;
    }
    Ok(Tables::of_lists(tables))
}

// The rows of one table.
fn rows_of_table(alloc: Global, table: &Table, node: Node<'_>) -> Result<Seq<Row>, Memory>
    ensures { IfOk result (λ rows. rows ≡ rows_of_table (part_of node.entry) table.now) }
{
    let mut rows = Seq::empty(alloc);
    for item in items_at(node, table.name.as_str()) {
        rows.push(row_in(alloc, table.cols.as_slice(), Node::new(item))?)?;
    }
    Ok(rows)
}

// A row: a cell for each column.
fn row_in(alloc: Global, cols: &[Column], node: Node<'_>) -> Result<Row, Memory>
    ensures { IfOk result (λ row. row ≡ row_in cols.now (part_of node.entry)) }
{
    let mut cells = Seq::empty(alloc);
    for column in cols {
        cells.push(cell_in(alloc, column, node)?)?;
    }
    Ok(Row { cells })
}

// The value of a row's member for a column.
fn cell_in(alloc: Global, column: &Column, node: Node<'_>) -> Result<Value, Memory>
    ensures { IfOk result (λ value. value ≡ cell_in (part_of node.entry) column.now) }
{
    let Some(member) = node.member(column.name.as_str()) else {
        return Ok(Value::Null);
    };
    let value = value_of_node(alloc, &column.kind, member)?;
    Ok(value.unwrap_or(Value::Null))
}
