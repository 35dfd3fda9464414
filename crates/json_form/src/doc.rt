ghost use Rattle.std.specs.Prelude.{◌≡◌, IfOk, false};
ghost use Rattle.serde_json.specs.View.{view};
ghost use Rattle.serde_json.specs.Written.{has_float};
ghost use Rattle.json_form.specs.TreeParts.{tree_at};
ghost use Rattle.json_form.specs.Documents.{Reads, printed, tree_of};
ghost use Rattle.json_form.specs.Nodes.{part_of};

use crate::node::Node;
use emc_base::{Bin, Memory};
use serde_json::Value;
use std::alloc::Global;
use thiserror::Error;

/// Why bytes were not read as a document.
#[derive(Clone, Copy, Debug, PartialEq, Eq, Error)]
pub enum DocFault {
    /// `serde_json` doesn't read the bytes, for another cause than memory.
    #[error("the bytes are not JSON")]
    NotJson,
    /// Memory ran out.
    #[error("out of memory")]
    Memory,
}

/// A JSON document, as the tree that `serde_json` reads.
#[derive(Drop)]
pub struct Doc {
    tree: Value,
}

impl Doc {
    /// Reads a document. `NotJson` comes exactly where `serde_json` doesn't read the bytes for another cause than memory.
    pub fn of_bytes(alloc: Global, bytes: &Bin) -> Result<Doc, DocFault>
        ensures { Reads (tree_at bytes.now) result }
    {
        match Value::from_slice(alloc, bytes.as_slice()) {
            Ok(tree) => Ok(Doc { tree }),
            Err(error) if error.is_memory() => Err(DocFault::Memory),
            Err(_) => Err(DocFault::NotJson),
        }
    }

    /// The document of a tree.
    pub fn of_tree(tree: Value) -> Doc
        ensures { tree_of result ≡ view tree }
    {
        Doc { tree }
    }

    /// The tree's root.
    pub fn root(&self) -> Node<'_>
        ensures { part_of result ≡ tree_of self.now }
    {
        Node::new(&self.tree)
    }

    /// The document as compact text and one line feed.
    pub fn bytes(&self, alloc: Global) -> Result<Bin, Memory>
        requires { has_float (tree_of self.now) ≡ false }
        ensures { IfOk result (λ bytes. bytes ≡ printed (tree_of self.now)) }
    {
        let mut text = self.tree.to_string(alloc)?;
        text.push('\n')?;
        Ok(Bin::from_vec(text.into_bytes()))
    }
}
