ghost use Rattle.std.specs.Prelude.{◌≡◌, ◌+◌, IfOk, false, map};
ghost use Rattle.serde_json.specs.View.{view};
ghost use Rattle.serde_json.specs.Written.{has_float};
ghost use Rattle.json_form.specs.Documents.{tree_of};
ghost use Rattle.drill_documents.specs.Documents.{changes_tree};
ghost use Rattle.drill_documents.specs.Lists.{changes};

use crate::lists::renamings;
use crate::objects::{first_document_gone, hired};
use emc_base::Memory;
use json_form::{Doc, array_tree};
use serde_json::Value as Tree;
use std::alloc::Global;

/// The change document of a seed and a count. `Memory` comes where memory ran out.
pub fn changes_document(alloc: Global, seed: u64, count: u32) -> Result<Doc, Memory>
    ensures tree { IfOk result (λ doc. tree_of doc ≡ changes_tree seed count) }
    ensures plain { IfOk result (λ doc. has_float (tree_of doc) ≡ false) }
{
    let trees = changes(alloc, seed, count)?;
    Ok(Doc::of_tree(array_tree(trees)))
}

fn changes(alloc: Global, seed: u64, count: u32) -> Result<Vec<Tree>, Memory>
    ensures { IfOk result (λ trees. map view trees.items ≡ changes seed count) }
{
    let mut trees = renamings(alloc, seed, count)?;
    trees.push(hired(alloc, count as u64 + 1)?)?;
    if count > 0 {
        trees.push(first_document_gone(alloc)?)?;
    }
    Ok(trees)
}
