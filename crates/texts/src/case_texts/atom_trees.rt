ghost use Rattle.std.specs.Prelude.{◌≡◌, ◌∷◌, [], IfOk, codes, filter, map};
ghost use Rattle.serde_json.specs.View.{view};
ghost use Rattle.json_form.specs.Trees.{array_of, object_of, value_tree};
ghost use Rattle.cells.specs.Parts.{AreParts};
ghost use Rattle.region_states.specs.region_basis.BasisOf.{basis_of};
ghost use Rattle.regions.specs.Fitting.{fits};
ghost use Rattle.texts.specs.case_texts.CaseTree.{atom_member, atom_tree, told_constants};

use crate::case_texts::cell_trees::is_tree;
use crate::case_texts::names::name_of;
use cells::Parts;
use condition_logic::{Atom, AtomOf};
use emc_base::{Kind, Memory, PropId, Value, in_domain};
use json_form::{array_tree, object_tree, value_tree};
use region_partition::constants_of;
use serde_json::{Map, Value as Tree};
use std::alloc::Global;

// What is known of tested properties: each property's name with its atom.
pub(super) fn atoms_tree(alloc: Global, parts: &Parts<'_>, atoms: &[AtomOf]) -> Result<Tree, Memory>
    requires { AreParts parts.now }
    ensures { IfOk result (λ tree. view tree ≡ object_of (map (atom_member (basis_of parts.now)) atoms.now)) }
{
    let mut members = Map::new(alloc);
    for told in atoms {
        let tree = atom_tree(alloc, parts, told.prop, &told.atom)?;
        serde_json::put(&mut members, alloc, name_of(parts.model, told.prop), tree)?;
    }
    Ok(object_tree(members))
}

// What is known of a property.
fn atom_tree(alloc: Global, parts: &Parts<'_>, prop: PropId, atom: &Atom) -> Result<Tree, Memory>
    requires { AreParts parts.now }
    ensures { IfOk result (λ tree. view tree ≡ atom_tree (basis_of parts.now) prop atom.now) }
{
    match atom {
        Atom::Null => is_tree(alloc, &Value::Null),
        Atom::Is(value) => is_tree(alloc, value),
        Atom::Other => other_tree(alloc, parts, prop),
    }
}

// All values but null and the constants in the property's domain.
fn other_tree(alloc: Global, parts: &Parts<'_>, prop: PropId) -> Result<Tree, Memory>
    requires { AreParts parts.now }
    ensures { IfOk result (λ tree. view tree ≡ object_of ((codes "not", array_of (map value_tree (told_constants (basis_of parts.now) prop))) ∷ [])) }
{
    let mut members = Map::new(alloc);
    let constants = told_trees(alloc, parts, prop)?;
    serde_json::put(&mut members, alloc, "not", array_tree(constants))?;
    Ok(object_tree(members))
}

// The constants in the property's domain.
fn told_trees(alloc: Global, parts: &Parts<'_>, prop: PropId) -> Result<Vec<Tree>, Memory>
    requires { AreParts parts.now }
    ensures { IfOk result (λ trees. map view trees.items ≡ map value_tree (told_constants (basis_of parts.now) prop)) }
{
    match parts.model.props.get(prop.index as usize) {
        Some(declared) => fitting_trees(
            alloc,
            &declared.kind,
            constants_of(parts, prop).as_slice(),
        ),
        None => Ok(Vec::new(alloc)),
    }
}

// Those of these values that a kind allows.
fn fitting_trees(alloc: Global, kind: &Kind, values: &[Value]) -> Result<Vec<Tree>, Memory>
    ensures { IfOk result (λ trees. map view trees.items ≡ map value_tree (filter (λ value. fits value kind.now) values.now)) }
{
    let mut trees = Vec::new(alloc);
    for value in values {
        if in_domain(value, kind) {
            trees.push(value_tree(alloc, value)?)?;
        }
    }
    Ok(trees)
}
