ghost use Rattle.std.specs.Prelude.{◌≡◌, ◌↔◌, IfOk, IsTrue};
ghost use Rattle.serde_json.specs.Data.{Data};
ghost use Rattle.json_form.specs.Members.{HasMember};
ghost use Rattle.json_form.specs.Nodes.{part_of};
ghost use Rattle.groupings.specs.least_fault.Least.{Among, IsLeast};
ghost use Rattle.layouts.specs.Faults.{fault_cmp};
ghost use Rattle.layouts.specs.Forms.{IsRequired, Lacks};
ghost use Rattle.layouts.specs.Inside.{IsLackFault};

use crate::fault::Fault;
use crate::form::{Entry, Shape};
use crate::names::entry_of;
use crate::rule::Rule;
use emc_base::{Memory, Txt};
use groupings::Finder;
use json_form::{Node, Step};
use std::alloc::Global;

/// Looks for members that an object lacks.
#[derive(Clone, Copy)]
pub struct Missing<'a> {
    /// The object's shape.
    pub shape: Shape,
    /// The object.
    pub node: Node<'a>,
}

impl<'a> Finder<(&str, Entry), Fault> for Missing<'a> {
    ghost use Rattle.json_form.specs.Nodes.{part_of};
    ghost use Rattle.layouts.specs.Inside.{IsLackFault};

    ghost wrong = { λ s i row. IsLackFault s.shape (part_of s.node) row.0.now };

    fn find(
        &self,
        alloc: Global,
        _place: usize,
        row: &(&str, Entry),
    ) -> Result<Option<Fault>, Memory> {
        first_lack(alloc, self.shape, self.node, row.0)
    }
}

// The fault of a member of this name, where it has to be there and isn't.
fn first_lack(
    alloc: Global,
    shape: Shape,
    node: Node<'_>,
    name: &str,
) -> Result<Option<Fault>, Memory>
    ensures { IfOk result (λ found. IsLeast fault_cmp (IsLackFault shape (part_of node.entry) name.now) found) }
{
    if !lacks(shape, node, name) {
        return Ok(None);
    }
    let fault = Fault::here(alloc, Rule::HasMembers);
    let seen = fault.after(Step::Member(Txt::of(alloc, name)?))?;
    Ok(Some(seen))
}

// Whether an object of this shape lacks a member of this name, which has to be there.
fn lacks(shape: Shape, node: Node<'_>, name: &str) -> bool
    ensures { IsTrue result ↔ Lacks shape (part_of node.entry) name.now }
{
    if !node.is_object() {
        return false;
    }
    is_required(shape, name) && has_none(node, name)
}

fn is_required(shape: Shape, name: &str) -> bool
    ensures { IsTrue result ↔ IsRequired shape name.now }
{
    matches!(entry_of(shape, name), Some(Entry::Required(_)))
}

fn has_none(node: Node<'_>, name: &str) -> bool
    ensures { IsTrue result ↔ ((part : Data) → ¬ HasMember (part_of node.entry) name.now part) }
{
    node.member(name).is_none()
}
