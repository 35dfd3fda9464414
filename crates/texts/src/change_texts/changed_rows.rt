ghost use Rattle.std.specs.Prelude.{◌≡◌, ◌∷◌, [], IfOk, OnOk, codes, map, string_bytes};
ghost use Rattle.serde_json.specs.Data.{put, string};
ghost use Rattle.serde_json.specs.View.{members_view, view};
ghost use Rattle.serde_json.specs.Written.{compact_text};
ghost use Rattle.json_form.specs.Trees.{array_of, key_tree, put_all};
ghost use Rattle.round_trip.specs.Words.{cell_of, cells_of, key_columns};
ghost use Rattle.texts.specs.case_texts.Names.{table_name};
ghost use Rattle.texts.specs.change_texts.Texts.{cells_tree, circular_text, row_change_text, row_change_tree, with_row, without_row};

use edm_types::{Row, StoreModel};
use emc_base::{ColId, Key, Memory, Seq, TableId, Txt, Value};
use json_form::{array_tree, key_tree, object_tree, text_tree};
use row_changes::RowChange;
use serde_json::{Map, Value as Tree};
use std::alloc::Global;
use table_files::row_tree;

/// The line of a change of a row, by the names of the store. `Memory` comes where memory ran out.
#[tactic(auto, unfolding(crate::specs::change_texts::Texts::row_change_text))]
pub fn row_change_text(alloc: Global, store: &StoreModel, change: &RowChange) -> Result<Txt, Memory>
    ensures { IfOk result (λ text. text ≡ row_change_text store.now change.now) }
{
    let change = row_change_json(alloc, store, change)?;
    let text = format!(in alloc; "{change}\n")?;
    Ok(Txt::from_string(text))
}

/// Row changes that wait for one another in a ring, in their order. `Memory` comes where memory ran out.
#[tactic(auto, unfolding(crate::specs::change_texts::Texts::circular_text))]
pub fn circular_text(
    alloc: Global,
    store: &StoreModel,
    changes: &[RowChange],
) -> Result<Txt, Memory>
    ensures { IfOk result (λ text. text ≡ circular_text store.now changes.now) }
{
    let changes = row_changes_json(alloc, store, changes)?;
    let text = format!(in alloc; "data C4 {changes}\n")?;
    Ok(Txt::from_string(text))
}

// A change of a row as compact JSON text.
fn row_change_json(alloc: Global, store: &StoreModel, change: &RowChange) -> Result<String, Memory>
    ensures { IfOk result (λ text. string_bytes text ≡ compact_text (row_change_tree store.now change.now)) }
{
    let tree = row_change_tree(alloc, store, change)?;
    Ok(tree.to_string(alloc)?)
}

// Changes of rows as compact JSON text.
fn row_changes_json(
    alloc: Global,
    store: &StoreModel,
    changes: &[RowChange],
) -> Result<String, Memory>
    ensures { IfOk result (λ text. string_bytes text ≡ compact_text (array_of (map (row_change_tree store.now) changes.now))) }
{
    let tree = row_changes_tree(alloc, store, changes)?;
    Ok(tree.to_string(alloc)?)
}

// Changes of rows as a tree.
fn row_changes_tree(
    alloc: Global,
    store: &StoreModel,
    changes: &[RowChange],
) -> Result<Tree, Memory>
    ensures { IfOk result (λ tree. view tree ≡ array_of (map (row_change_tree store.now) changes.now)) }
{
    let mut trees = Vec::new(alloc);
    for change in changes {
        trees.push(row_change_tree(alloc, store, change)?)?;
    }
    Ok(array_tree(trees))
}

// A change of a row as a tree.
fn row_change_tree(alloc: Global, store: &StoreModel, change: &RowChange) -> Result<Tree, Memory>
    ensures { IfOk result (λ tree. view tree ≡ row_change_tree store.now change.now) }
{
    match change {
        RowChange::Insert(table, row) => with_row(alloc, store, "insert", *table, row),
        RowChange::Update(table, row) => with_row(alloc, store, "update", *table, row),
        RowChange::Delete(table, key) => without_row(alloc, store, *table, key),
    }
}

// A change with the row that comes.
fn with_row(
    alloc: Global,
    store: &StoreModel,
    word: &str,
    table: TableId,
    row: &Row,
) -> Result<Tree, Memory>
    ensures { IfOk result (λ tree. view tree ≡ with_row store.now word.now table row.now) }
{
    let key = cells_of(alloc, row, key_columns(store, table))?;
    let mut members = Map::new(alloc);
    put_key_and_word(alloc, &mut members, &key, word)?;
    put_row(alloc, &mut members, store, table, row)?;
    put_table(alloc, &mut members, store, table)?;
    Ok(object_tree(members))
}

// A delete.
fn without_row(alloc: Global, store: &StoreModel, table: TableId, key: &Key) -> Result<Tree, Memory>
    ensures { IfOk result (λ tree. view tree ≡ without_row store.now table key.now) }
{
    let mut members = Map::new(alloc);
    put_key_and_word(alloc, &mut members, key, "delete")?;
    put_table(alloc, &mut members, store, table)?;
    Ok(object_tree(members))
}

// Puts the key of a row and the word for a change into an object.
fn put_key_and_word(
    alloc: Global,
    members: &mut Map<String, Tree>,
    key: &Key,
    word: &str,
) -> Result<(), Memory>
    ensures { OnOk result (members_view members.new.entries ≡ put_all (members_view members.old.entries) ((codes "key", key_tree key.now) ∷ (codes "op", string word.now) ∷ [])) }
{
    let key = key_tree(alloc, key)?;
    serde_json::put(members, alloc, "key", key)?;
    let word = text_tree(alloc, word)?;
    serde_json::put(members, alloc, "op", word)?;
    Ok(())
}

// Puts a row into an object.
fn put_row(
    alloc: Global,
    members: &mut Map<String, Tree>,
    store: &StoreModel,
    table: TableId,
    row: &Row,
) -> Result<(), Memory>
    ensures { OnOk result (members_view members.new.entries ≡ put (codes "row") (cells_tree store.now table row.now) (members_view members.old.entries)) }
{
    let row = cells_tree(alloc, store, table, row)?;
    serde_json::put(members, alloc, "row", row)?;
    Ok(())
}

// Puts the name of a table into an object.
fn put_table(
    alloc: Global,
    members: &mut Map<String, Tree>,
    store: &StoreModel,
    table: TableId,
) -> Result<(), Memory>
    ensures { OnOk result (members_view members.new.entries ≡ put (codes "table") (string (table_name store.now table)) (members_view members.old.entries)) }
{
    let name = text_tree(alloc, table_name(store, table))?;
    serde_json::put(members, alloc, "table", name)?;
    Ok(())
}

// A row by the names of its table's columns; null where there is no such table.
fn cells_tree(alloc: Global, store: &StoreModel, table: TableId, row: &Row) -> Result<Tree, Memory>
    ensures { IfOk result (λ tree. view tree ≡ cells_tree store.now table row.now) }
{
    match store.tables.get(table.index as usize) {
        Some(declared) => row_tree(alloc, declared, row),
        None => Ok(Tree::Null),
    }
}

// The name of a table.
fn table_name(store: &StoreModel, table: TableId) -> &str
    ensures { result.now ≡ table_name store.now table }
{
    match store.tables.get(table.index as usize) {
        Some(declared) => declared.name.as_str(),
        None => "",
    }
}

// The columns of a table's primary key.
fn key_columns(store: &StoreModel, table: TableId) -> &[ColId]
    ensures { result.now ≡ key_columns store.now table }
{
    match store.tables.get(table.index as usize) {
        Some(declared) => declared.key.as_slice(),
        None => &[],
    }
}

// A row's cells of several columns.
fn cells_of(alloc: Global, row: &Row, cols: &[ColId]) -> Result<Key, Memory>
    ensures { IfOk result (λ cells. cells ≡ cells_of row.now cols.now) }
{
    let mut cells = Seq::empty(alloc);
    for col in cols {
        cells.push(cell_of(alloc, row, *col)?)?;
    }
    Ok(cells)
}

// A row's cell of a column; null where it has none.
fn cell_of(alloc: Global, row: &Row, col: ColId) -> Result<Value, Memory>
    ensures { IfOk result (λ value. value ≡ cell_of row.now col) }
{
    match row.cells.get(col.index as usize) {
        Some(value) => value.copy(alloc),
        None => Ok(Value::Null),
    }
}
