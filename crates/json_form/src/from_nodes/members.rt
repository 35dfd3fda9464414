ghost use Rattle.std.specs.Prelude.{◌≡◌, IfOk, option_map};
ghost use Rattle.json_form.specs.Nodes.{part_of};
ghost use Rattle.json_form.specs.from_nodes.Reading.{flag_at, optional_text_at, text_at, whole_at};

use crate::Node;
use emc_base::{Memory, Txt};
use std::alloc::Global;

/// The text of a member; the empty text where it has none.
pub fn text_at(alloc: Global, node: Node<'_>, name: &str) -> Result<Txt, Memory>
    ensures { IfOk result (λ text. text ≡ text_at name.now (part_of node.entry)) }
{
    match text_of_member(node, name) {
        Some(text) => Txt::of(alloc, text),
        None => Txt::of(alloc, ""),
    }
}

/// The text of a member, where it has one.
pub fn optional_text_at(alloc: Global, node: Node<'_>, name: &str) -> Result<Option<Txt>, Memory>
    ensures { IfOk result (λ text. text ≡ optional_text_at name.now (part_of node.entry)) }
{
    match text_of_member(node, name) {
        Some(text) => {
            let text = Txt::of(alloc, text)?;
            Ok(Some(text))
        }
        None => Ok(None),
    }
}

fn text_of_member<'a>(node: Node<'a>, name: &str) -> Option<&'a str>
    ensures { option_map (λ text. text.now) result ≡ optional_text_at name.now (part_of node.entry) }
{
    let member = node.member(name)?;
    member.text()
}

/// The flag of a member; the default where it has none.
pub fn flag_at(node: Node<'_>, name: &str, default: bool) -> bool
    ensures { result ≡ flag_at name.now default (part_of node.entry) }
{
    match node.member(name) {
        Some(member) => member.flag().unwrap_or(default),
        None => default,
    }
}

/// The number of a member, where it is whole and fits an `i64`.
pub fn whole_at(node: Node<'_>, name: &str) -> Option<i64>
    ensures { result ≡ whole_at name.now (part_of node.entry) }
{
    let member = node.member(name)?;
    member.whole()
}
