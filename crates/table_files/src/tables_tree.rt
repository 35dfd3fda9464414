ghost use Rattle.std.specs.Prelude.{◌≡◌, IfOk, false, length, map};
ghost use Rattle.serde_json.specs.View.{view};
ghost use Rattle.serde_json.specs.Written.{has_float};
ghost use Rattle.json_form.specs.Documents.{tree_of};
ghost use Rattle.json_form.specs.Trees.{array_of, value_tree};
ghost use Rattle.edm_types.specs.Rows.{cell_of};
ghost use Rattle.table_files.specs.InOrder.{AreInKeyOrder};
ghost use Rattle.table_files.specs.TablesTree.{row_tree, tables_tree};
ghost use Rattle.table_files.specs.Tells.{IsTreeInKeyOrder};

use crate::cells::cell_or;
use crate::key_order::rows_in_order;
use crate::tables::Tables;
use edm_types::{Row, StoreModel, Table};
use emc_base::{ColId, Memory, TableId, Value};
use json_form::{Doc, array_tree, object_tree, value_tree};
use serde_json::{Map, Value as Tree};
use std::alloc::Global;

impl Tables {
    /// The tables as a document: an object with a member for each table, under its name the array of its rows, each an object
    /// with a member for each column. The rows stand in the order of their primary keys, those of one key in that of their list.
    /// `Memory` comes where memory ran out.
    pub fn to_doc(&self, alloc: Global, store: &StoreModel) -> Result<Doc, Memory>
        requires { length self.now ≡ length store.now.tables }
        ensures tree { IfOk result (λ doc. IsTreeInKeyOrder store.now self.now (tree_of doc)) }
        ensures plain { IfOk result (λ doc. has_float (tree_of doc) ≡ false) }
    {
        let sorted = sorted_tables(alloc, store, self)?;
        let tree = tables_tree(alloc, store, sorted.as_slice())?;
        Ok(Doc::of_tree(tree))
    }
}

// Lends the rows of each table in the order of their primary keys.
fn sorted_tables<'t>(
    alloc: Global,
    store: &StoreModel,
    tables: &'t Tables,
) -> Result<Vec<Vec<&'t Row>>, Memory>
    requires { length tables.now ≡ length store.now.tables }
    ensures { IfOk result (λ sorted. AreInKeyOrder store.now tables.now (map (λ rows. map (λ row. row.now) rows.items) sorted.items)) }
{
    let declared = store.tables.as_slice();
    let mut sorted = Vec::new(alloc);
    for (i, table) in declared.iter().enumerate() {
        let rows = tables.rows(TableId { index: i as u32 });
        sorted.push(rows_in_order(alloc, rows.as_slice(), table.key.as_slice())?)?;
    }
    Ok(sorted)
}

fn tables_tree(alloc: Global, store: &StoreModel, tables: &[Vec<&Row>]) -> Result<Tree, Memory>
    requires { length tables.now ≡ length store.now.tables }
    ensures { IfOk result (λ tree. view tree ≡ tables_tree store.now (map (λ rows. map (λ row. row.now) rows.items) tables.now)) }
{
    let declared = store.tables.as_slice();
    let mut members = Map::new(alloc);
    for (i, table) in declared.iter().enumerate() {
        let tree = rows_tree(alloc, table, tables[i].as_slice())?;
        serde_json::put(&mut members, alloc, table.name.as_str(), tree)?;
    }
    Ok(object_tree(members))
}

fn rows_tree(alloc: Global, table: &Table, rows: &[&Row]) -> Result<Tree, Memory>
    ensures { IfOk result (λ tree. view tree ≡ array_of (map (row_tree table.now) (map (λ row. row.now) rows.now))) }
{
    let mut trees = Vec::new(alloc);
    for row in rows {
        trees.push(row_tree(alloc, table, row)?)?;
    }
    Ok(array_tree(trees))
}

/// A row of a table as a tree: an object with a member for each column. `Memory` comes where memory ran out.
pub fn row_tree(alloc: Global, table: &Table, row: &Row) -> Result<Tree, Memory>
    ensures { IfOk result (λ tree. view tree ≡ row_tree table.now row.now) }
{
    let columns = table.cols.as_slice();
    let mut members = Map::new(alloc);
    for (i, column) in columns.iter().enumerate() {
        let tree = cell_tree(alloc, row, ColId { index: i as u32 })?;
        serde_json::put(&mut members, alloc, column.name.as_str(), tree)?;
    }
    Ok(object_tree(members))
}

fn cell_tree(alloc: Global, row: &Row, col: ColId) -> Result<Tree, Memory>
    ensures { IfOk result (λ tree. view tree ≡ value_tree (cell_of row.now col)) }
{
    let null = Value::Null;
    value_tree(alloc, cell_or(row, col, &null))
}
