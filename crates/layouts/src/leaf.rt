ghost use Rattle.std.specs.Prelude.{◌≡◌, ◌⊎◌, ◌↔◌, IsTrue, IsSomeAnd, Some, codes};
ghost use Rattle.serde_json.specs.Find.{as_str};
ghost use Rattle.json_form.specs.Nodes.{part_of};
ghost use Rattle.edm_types.specs.Names.{IsName, IsNamespace, IsPlainName};
ghost use Rattle.layouts.specs.Forms.{IsLeaf};

use crate::form::Leaf;
use edm_types::{is_name, is_namespace, is_plain_name};
use json_form::Node;

/// Whether a node is what the leaf says.
pub fn is_leaf(leaf: Leaf, node: Node<'_>) -> bool
    ensures { IsTrue result ↔ IsLeaf leaf (part_of node.entry) }
{
    match leaf {
        Leaf::Any => true,
        Leaf::Text => node.text().is_some(),
        Leaf::Name => node.text().is_some_and(|text| is_name(text)),
        Leaf::PlainName => node.text().is_some_and(|text| is_plain_name(text)),
        Leaf::Namespace => node.text().is_some_and(|text| is_namespace(text)),
        Leaf::Flag | Leaf::UnsetFlag => node.flag().is_some(),
        Leaf::Number => node.whole().is_some(),
        Leaf::NumberOrMax => node.whole().is_some() || is_text(node, "Max"),
        Leaf::Multiplicity => is_text(node, "1") || is_text(node, "0..1") || is_text(node, "*"),
    }
}

// Whether a node is this text.
fn is_text(node: Node<'_>, text: &str) -> bool
    ensures { IsTrue result ↔ (as_str (part_of node.entry) ≡ Some text.now) }
{
    node.text() == Some(text)
}
