ghost use Rattle.std.specs.Prelude.{◌≡◌, IfOk, map};
ghost use Rattle.serde_json.specs.Data.{Data};
ghost use Rattle.serde_json.specs.View.{view};
ghost use Rattle.json_form.specs.Nodes.{part_of};
ghost use Rattle.json_form.specs.from_nodes.Reading.{items_at, text_of, texts_at};

use crate::Node;
use emc_base::{Memory, Seq, Txt};
use serde_json::Value;
use std::alloc::Global;

/// What is read from a node.
pub trait FromNode: Drop {
    /// What a node means.
    ghost of: { Data → Self };

    /// Reads a node. `Memory` comes where there is none for it.
    fn read(alloc: Global, node: Node<'_>) -> Result<Self, Memory>
        ensures { IfOk result (λ read. read ≡ of (part_of node.entry)) };
}

/// What is read from each item of the array of this name; none where there is no array.
pub fn list_at<T: FromNode>(alloc: Global, node: Node<'_>, name: &str) -> Result<Seq<T>, Memory>
    ensures { IfOk result (λ list. list ≡ map T.of (items_at name.now (part_of node.entry))) }
{
    let mut list = Seq::empty(alloc);
    for item in items_at(node, name) {
        list.push(T::read(alloc, Node::new(item))?)?;
    }
    Ok(list)
}

/// The items of the array of this name; none where there is no array.
pub fn items_at<'a>(node: Node<'a>, name: &str) -> &'a [Value]
    ensures { map view result.now ≡ items_at name.now (part_of node.entry) }
{
    match node.member(name) {
        Some(member) => member.items(),
        None => &[],
    }
}

impl FromNode for Txt {
    ghost use Rattle.json_form.specs.from_nodes.Reading.{text_of};

    ghost of = { text_of };

    fn read(alloc: Global, node: Node<'_>) -> Result<Txt, Memory> {
        match node.text() {
            Some(text) => Txt::of(alloc, text),
            None => Txt::of(alloc, ""),
        }
    }
}

/// The texts of the array of this name.
pub fn texts_at(alloc: Global, node: Node<'_>, name: &str) -> Result<Seq<Txt>, Memory>
    ensures { IfOk result (λ list. list ≡ texts_at name.now (part_of node.entry)) }
{
    list_at(alloc, node, name)
}
