ghost use Rattle.std.specs.Prelude.{◌≡◌, IfOk, Ok, map};
ghost use Rattle.json_form.specs.Nodes.{part_of};
ghost use Rattle.json_form.specs.from_nodes.Reading.{items_at, optional_text_at, text_at};

use emc_base::{Memory, Seq, Txt};
use json_form::{FromNode, Node, list_at, optional_text_at, text_at};
use std::alloc::Global;

/// Two texts of a node.
pub fn two_texts_at(
    alloc: Global,
    node: Node<'_>,
    one: &str,
    other: &str,
) -> Result<(Txt, Txt), Memory>
    ensures { IfOk result (λ texts. texts ≡ (text_at one.now (part_of node.entry), text_at other.now (part_of node.entry))) }
{
    let first = text_at(alloc, node, one)?;
    let second = text_at(alloc, node, other)?;
    Ok((first, second))
}

/// Two texts of a node, of which the second may be missing.
pub fn text_and_optional_at(
    alloc: Global,
    node: Node<'_>,
    one: &str,
    other: &str,
) -> Result<(Txt, Option<Txt>), Memory>
    ensures { IfOk result (λ texts. texts ≡ (text_at one.now (part_of node.entry), optional_text_at other.now (part_of node.entry))) }
{
    let first = text_at(alloc, node, one)?;
    let second = optional_text_at(alloc, node, other)?;
    Ok((first, second))
}

/// Two lists of a node.
pub fn two_lists_at<T: FromNode, U: FromNode>(
    alloc: Global,
    node: Node<'_>,
    one: &str,
    other: &str,
) -> Result<(Seq<T>, Seq<U>), Memory>
    ensures { IfOk result (λ lists. lists ≡ (map T.of (items_at one.now (part_of node.entry)), map U.of (items_at other.now (part_of node.entry)))) }
{
    let first = list_at(alloc, node, one)?;
    let second = list_at(alloc, node, other)?;
    Ok((first, second))
}
