ghost use Rattle.std.specs.Prelude.{◌≡◌, IfOk, option_map};
ghost use Rattle.serde_json.specs.Find.{get};
ghost use Rattle.json_form.specs.Nodes.{part_of};
ghost use Rattle.json_form.specs.from_nodes.Reading.{object_at};

use crate::Node;
use crate::from_nodes::lists::FromNode;
use emc_base::Memory;
use serde_json::Value;
use std::alloc::Global;

/// What is read from the member of this name; from null where there is none.
pub fn object_at<T: FromNode>(alloc: Global, node: Node<'_>, name: &str) -> Result<T, Memory>
    ensures { IfOk result (λ read. read ≡ T.of (object_at name.now (part_of node.entry))) }
{
    match node.member(name) {
        Some(member) => T::read(alloc, member),
        None => T::read(alloc, Node::new(&Value::Null)),
    }
}

/// What is read from the member of this name, where there is one.
pub fn optional_object_at<T: FromNode>(
    alloc: Global,
    node: Node<'_>,
    name: &str,
) -> Result<Option<T>, Memory>
    ensures { IfOk result (λ read. read ≡ option_map T.of (get name.now (part_of node.entry))) }
{
    match node.member(name) {
        Some(member) => Ok(Some(T::read(alloc, member)?)),
        None => Ok(None),
    }
}
