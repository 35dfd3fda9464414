ghost use Rattle.std.specs.Prelude.{◌≡◌, ◌++◌, IfOk, false, flat_map, length, map, zip};
ghost use Rattle.std.specs.List.{enumerate_from};
ghost use Rattle.serde_json.specs.View.{view};
ghost use Rattle.serde_json.specs.Written.{has_float};
ghost use Rattle.json_form.specs.Documents.{printed};
ghost use Rattle.cells.specs.Parts.{AreParts};
ghost use Rattle.texts.specs.case_texts.Views.{joined_at, joined_by, set_tree, views_text};

use crate::case_texts::case_trees::set_tree;
use crate::case_texts::end_trees::joined_tree;
use case_laws::Case;
use cells::{LinkPlace, Parts};
use emc_base::{AssocId, Bin, Memory, Seq};
use json_form::Doc;
use query_cases::link_case;
use serde_json::Value as Tree;
use std::alloc::Global;

/// The text of query views, by the cases of each set in the order of the model: for each entity set a line of JSON with these cases, and then
/// for each joined association a line with the case of its links. `Memory` comes where memory ran out.
pub fn views_text(alloc: Global, parts: &Parts<'_>, cases: &[Seq<Case>]) -> Result<Bin, Memory>
    requires parts { AreParts parts.now }
    requires each { length cases.now ≡ length parts.now.model.now.sets }
    ensures { IfOk result (λ text. text ≡ views_text parts.now cases.now) }
{
    let mut text = Vec::new(alloc);
    add_sets(alloc, parts, cases, &mut text)?;
    add_links(alloc, parts, &mut text)?;
    Ok(Bin::from_vec(text))
}

// Adds the lines of the sets.
fn add_sets(
    alloc: Global,
    parts: &Parts<'_>,
    cases: &[Seq<Case>],
    text: &mut Vec<u8>,
) -> Result<(), Memory>
    requires { AreParts parts.now }
    ensures { IfOk result (λ _. text.new.items ≡ text.old.items ++ flat_map printed (map (set_tree parts.now) (zip parts.now.model.now.sets cases.now))) }
{
    for (set, own) in parts.model.sets.as_slice().iter().zip(cases) {
        let tree = set_tree(alloc, parts, set, own.as_slice())?;
        add_line(alloc, text, tree)?;
    }
    Ok(())
}

// Adds the lines of the joined associations.
fn add_links(alloc: Global, parts: &Parts<'_>, text: &mut Vec<u8>) -> Result<(), Memory>
    requires { AreParts parts.now }
    ensures { IfOk result (λ _. text.new.items ≡ text.old.items ++ flat_map printed (flat_map (joined_at parts.now) (enumerate_from 0 parts.now.model.now.assocs))) }
{
    for index in 0..parts.model.assocs.len() {
        let id = AssocId {
            index: index as u32,
        };
        add_joined(alloc, parts, id, parts.cells.link_place(id), text)?;
    }
    Ok(())
}

// Adds the line of an association of this place, if its links are joined.
fn add_joined(
    alloc: Global,
    parts: &Parts<'_>,
    id: AssocId,
    place: LinkPlace,
    text: &mut Vec<u8>,
) -> Result<(), Memory>
    requires { AreParts parts.now }
    ensures { IfOk result (λ _. text.new.items ≡ text.old.items ++ flat_map printed (joined_by parts.now id place)) }
{
    let LinkPlace::Joined(_) = place else {
        return Ok(());
    };
    let Some(case) = link_case(alloc, parts, id)? else {
        return Ok(());
    };
    let tree = joined_tree(alloc, parts.model, parts.store, &case)?;
    add_line(alloc, text, tree)
}

// Adds a line.
fn add_line(alloc: Global, text: &mut Vec<u8>, tree: Tree) -> Result<(), Memory>
    requires { has_float (view tree) ≡ false }
    ensures { IfOk result (λ _. text.new.items ≡ text.old.items ++ printed (view tree)) }
{
    let line = Doc::of_tree(tree).bytes(alloc)?;
    text.extend_from_slice(line.as_slice())?;
    Ok(())
}
