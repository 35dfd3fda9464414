ghost use Rattle.std.specs.Prelude.{◌≡◌, IfOk, false};
ghost use Rattle.serde_json.specs.View.{view};
ghost use Rattle.serde_json.specs.Written.{has_float};
ghost use Rattle.json_form.specs.Documents.{tree_of};
ghost use Rattle.drill_documents.specs.Documents.{entities_tree, tree_of_lists};

use crate::links::links;
use crate::lists::{documents, people};
use emc_base::Memory;
use json_form::{Doc, array_tree};
use serde_json::{Value as Tree, json};
use std::alloc::Global;

/// The entity document of a seed and a count. `Memory` comes where memory ran out.
pub fn entities_document(alloc: Global, seed: u64, count: u32) -> Result<Doc, Memory>
    ensures tree { IfOk result (λ doc. tree_of doc ≡ entities_tree seed count) }
    ensures plain { IfOk result (λ doc. has_float (tree_of doc) ≡ false) }
{
    let tree = entities_tree(alloc, seed, count)?;
    Ok(Doc::of_tree(tree))
}

fn entities_tree(alloc: Global, seed: u64, count: u32) -> Result<Tree, Memory>
    ensures { IfOk result (λ tree. view tree ≡ entities_tree seed count) }
{
    let links = array_tree(links(alloc, seed, count)?);
    let documents = array_tree(documents(alloc, seed, count)?);
    let people = array_tree(people(alloc, seed, count)?);
    tree_of_lists(alloc, links, documents, people)
}

// The entity document of its three lists.
fn tree_of_lists(alloc: Global, links: Tree, documents: Tree, people: Tree) -> Result<Tree, Memory>
    ensures { IfOk result (λ tree. view tree ≡ tree_of_lists (view links) (view documents) (view people)) }
{
    Ok(json!(in alloc; {"Boss": links, "Documents": documents, "People": people})?)
}
