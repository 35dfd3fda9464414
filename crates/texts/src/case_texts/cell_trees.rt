ghost use Rattle.std.specs.Prelude.{◌≡◌, ◌∷◌, [], IfOk, codes, map, string_bytes, zip};
ghost use Rattle.serde_json.specs.Data.{string};
ghost use Rattle.serde_json.specs.View.{view};
ghost use Rattle.json_form.specs.Trees.{object_of};
ghost use Rattle.entity_state.specs.StateTree.{name_of};
ghost use Rattle.texts.specs.case_texts.CaseTree.{cell_tree, column_member, free_tree, is_tree};
ghost use Rattle.texts.specs.case_texts.Names.{assoc_name};

use crate::case_texts::names::{assoc_name, name_of};
use case_laws::CaseCell;
use edm_types::{Column, EntityModel};
use emc_base::{AssocId, Memory, PropId, Value};
use json_form::{object_tree, text_tree, value_tree};
use serde_json::{Map, Value as Tree};
use std::alloc::Global;

// One value alone.
pub(super) fn is_tree(alloc: Global, value: &Value) -> Result<Tree, Memory>
    ensures { IfOk result (λ tree. view tree ≡ is_tree value.now) }
{
    let mut members = Map::new(alloc);
    let is = value_tree(alloc, value)?;
    serde_json::put(&mut members, alloc, "is", is)?;
    Ok(object_tree(members))
}

// Anything.
pub(super) fn free_tree(alloc: Global) -> Result<Tree, Memory>
    ensures { IfOk result (λ tree. view tree ≡ free_tree) }
{
    let mut members = Map::new(alloc);
    serde_json::put(&mut members, alloc, "free", Tree::Bool(true))?;
    Ok(object_tree(members))
}

// The value of a property.
fn property_tree(alloc: Global, model: &EntityModel, prop: PropId) -> Result<Tree, Memory>
    ensures { IfOk result (λ tree. view tree ≡ object_of ((codes "property", string (name_of model.now prop)) ∷ [])) }
{
    let mut members = Map::new(alloc);
    let name = text_tree(alloc, name_of(model, prop))?;
    serde_json::put(&mut members, alloc, "property", name)?;
    Ok(object_tree(members))
}

// A part of the key of a link's partner.
fn partner_tree(
    alloc: Global,
    model: &EntityModel,
    assoc: AssocId,
    prop: PropId,
) -> Result<Tree, Memory>
    ensures { IfOk result (λ tree. view tree ≡ object_of ((codes "link", string (assoc_name model.now assoc)) ∷ (codes "property", string (name_of model.now prop)) ∷ [])) }
{
    let mut members = Map::new(alloc);
    let link = text_tree(alloc, assoc_name(model, assoc))?;
    serde_json::put(&mut members, alloc, "link", link)?;
    let name = text_tree(alloc, name_of(model, prop))?;
    serde_json::put(&mut members, alloc, "property", name)?;
    Ok(object_tree(members))
}

// What a cell holds.
fn cell_tree(alloc: Global, model: &EntityModel, cell: &CaseCell) -> Result<Tree, Memory>
    ensures { IfOk result (λ tree. view tree ≡ cell_tree model.now cell.now) }
{
    match cell {
        CaseCell::Const(value) => is_tree(alloc, value),
        CaseCell::Prop(prop) => property_tree(alloc, model, *prop),
        CaseCell::Partner { assoc, prop } => partner_tree(alloc, model, *assoc, *prop),
        CaseCell::Free => free_tree(alloc),
    }
}

// A row: each column's name with what the cell beside it holds.
pub(super) fn cells_tree(
    alloc: Global,
    model: &EntityModel,
    columns: &[Column],
    cells: &[CaseCell],
) -> Result<Tree, Memory>
    ensures { IfOk result (λ tree. view tree ≡ object_of (map (column_member model.now) (zip columns.now cells.now))) }
{
    let mut members = Map::new(alloc);
    for (column, cell) in columns.iter().zip(cells) {
        let tree = cell_tree(alloc, model, cell)?;
        serde_json::put(&mut members, alloc, column.name.as_str(), tree)?;
    }
    Ok(object_tree(members))
}
