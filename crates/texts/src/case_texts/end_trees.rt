ghost use Rattle.std.specs.Prelude.{◌≡◌, IfOk, map, zip};
ghost use Rattle.serde_json.specs.View.{view};
ghost use Rattle.json_form.specs.Trees.{object_of};
ghost use Rattle.texts.specs.case_texts.Views.{end_member, end_tree, joined_tree, part_tree};

use crate::case_texts::cell_trees::{free_tree, is_tree};
use crate::case_texts::names::{assoc_name, columns_of, name_of, role_name, table_name};
use case_laws::{LinkCase, LinkCaseCell};
use edm_types::{Column, EntityModel, StoreModel};
use emc_base::{AssocId, Memory, PropId};
use json_form::{object_tree, text_tree};
use serde_json::{Map, Value as Tree};
use std::alloc::Global;

// The case of a joined association.
pub(super) fn joined_tree(
    alloc: Global,
    model: &EntityModel,
    store: &StoreModel,
    case: &LinkCase,
) -> Result<Tree, Memory>
    ensures { IfOk result (λ tree. view tree ≡ joined_tree model.now store.now case.now) }
{
    let mut members = Map::new(alloc);
    let columns = columns_of(store, case.table);
    let cells = ends_tree(alloc, model, case.assoc, columns, case.cells.as_slice())?;
    serde_json::put(&mut members, alloc, "columns", cells)?;
    let links = text_tree(alloc, assoc_name(model, case.assoc))?;
    serde_json::put(&mut members, alloc, "links", links)?;
    let table = text_tree(alloc, table_name(store, case.table))?;
    serde_json::put(&mut members, alloc, "table", table)?;
    Ok(object_tree(members))
}

// The row of a link: each column's name with what the cell beside it holds.
fn ends_tree(
    alloc: Global,
    model: &EntityModel,
    assoc: AssocId,
    columns: &[Column],
    cells: &[LinkCaseCell],
) -> Result<Tree, Memory>
    ensures { IfOk result (λ tree. view tree ≡ object_of (map (end_member model.now assoc) (zip columns.now cells.now))) }
{
    let mut members = Map::new(alloc);
    for (column, cell) in columns.iter().zip(cells) {
        let tree = end_tree(alloc, model, assoc, cell)?;
        serde_json::put(&mut members, alloc, column.name.as_str(), tree)?;
    }
    Ok(object_tree(members))
}

// What a cell of a link's row holds.
fn end_tree(
    alloc: Global,
    model: &EntityModel,
    assoc: AssocId,
    cell: &LinkCaseCell,
) -> Result<Tree, Memory>
    ensures { IfOk result (λ tree. view tree ≡ end_tree model.now assoc cell.now) }
{
    match cell {
        LinkCaseCell::Const(value) => is_tree(alloc, value),
        LinkCaseCell::End { first, prop } => part_tree(alloc, model, assoc, *first, *prop),
        LinkCaseCell::Free => free_tree(alloc),
    }
}

// A part of the key at an end.
fn part_tree(
    alloc: Global,
    model: &EntityModel,
    assoc: AssocId,
    first: bool,
    prop: PropId,
) -> Result<Tree, Memory>
    ensures { IfOk result (λ tree. view tree ≡ part_tree model.now assoc first prop) }
{
    let mut members = Map::new(alloc);
    let name = text_tree(alloc, name_of(model, prop))?;
    serde_json::put(&mut members, alloc, "property", name)?;
    let role = text_tree(alloc, role_name(model, assoc, first))?;
    serde_json::put(&mut members, alloc, "role", role)?;
    Ok(object_tree(members))
}
