ghost use Rattle.std.specs.Prelude.{◌≡◌, IfOk, map};
ghost use Rattle.serde_json.specs.View.{view};
ghost use Rattle.json_form.specs.Trees.{array_of, object_of};
ghost use Rattle.cells.specs.Parts.{AreParts};
ghost use Rattle.region_states.specs.region_basis.BasisOf.{basis_of};
ghost use Rattle.texts.specs.case_texts.CaseTree.{case_tree, row_member};
ghost use Rattle.texts.specs.case_texts.Views.{set_tree};

use crate::case_texts::atom_trees::atoms_tree;
use crate::case_texts::cell_trees::cells_tree;
use crate::case_texts::link_flags::links_tree;
use crate::case_texts::names::{columns_of, full_name, table_name};
use case_laws::{Case, CaseRow};
use cells::Parts;
use edm_types::{EntityModel, EntitySet, StoreModel};
use emc_base::Memory;
use json_form::{array_tree, object_tree, text_tree};
use serde_json::{Map, Value as Tree};
use std::alloc::Global;

// A set with its cases.
pub(super) fn set_tree(
    alloc: Global,
    parts: &Parts<'_>,
    set: &EntitySet,
    cases: &[Case],
) -> Result<Tree, Memory>
    requires { AreParts parts.now }
    ensures { IfOk result (λ tree. view tree ≡ set_tree parts.now (set.now, cases.now)) }
{
    let mut members = Map::new(alloc);
    let trees = cases_tree(alloc, parts, cases)?;
    serde_json::put(&mut members, alloc, "cases", trees)?;
    let name = text_tree(alloc, set.name.as_str())?;
    serde_json::put(&mut members, alloc, "set", name)?;
    Ok(object_tree(members))
}

// The cases of a set.
fn cases_tree(alloc: Global, parts: &Parts<'_>, cases: &[Case]) -> Result<Tree, Memory>
    requires { AreParts parts.now }
    ensures { IfOk result (λ tree. view tree ≡ array_of (map (case_tree (basis_of parts.now)) cases.now)) }
{
    let mut trees = Vec::new(alloc);
    for case in cases {
        trees.push(case_tree(alloc, parts, case)?)?;
    }
    Ok(array_tree(trees))
}

// The case of a region.
fn case_tree(alloc: Global, parts: &Parts<'_>, case: &Case) -> Result<Tree, Memory>
    requires { AreParts parts.now }
    ensures { IfOk result (λ tree. view tree ≡ case_tree (basis_of parts.now) case.now) }
{
    let region = &case.region;
    let mut members = Map::new(alloc);
    let atoms = atoms_tree(alloc, parts, region.atoms.as_slice())?;
    serde_json::put(&mut members, alloc, "atoms", atoms)?;
    let links = links_tree(alloc, parts, region)?;
    serde_json::put(&mut members, alloc, "links", links)?;
    let rows = rows_tree(alloc, parts.model, parts.store, case.rows.as_slice())?;
    serde_json::put(&mut members, alloc, "rows", rows)?;
    let name = full_name(alloc, parts.model, region.ty)?;
    serde_json::put(&mut members, alloc, "type", Tree::String(name))?;
    Ok(object_tree(members))
}

// The rows of a case: each table's name with its row.
fn rows_tree(
    alloc: Global,
    model: &EntityModel,
    store: &StoreModel,
    rows: &[CaseRow],
) -> Result<Tree, Memory>
    ensures { IfOk result (λ tree. view tree ≡ object_of (map (row_member model.now store.now) rows.now)) }
{
    let mut members = Map::new(alloc);
    for row in rows {
        let columns = columns_of(store, row.table);
        let tree = cells_tree(alloc, model, columns, row.cells.as_slice())?;
        serde_json::put(&mut members, alloc, table_name(store, row.table), tree)?;
    }
    Ok(object_tree(members))
}
