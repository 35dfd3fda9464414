ghost use Rattle.std.specs.Prelude.{◌≡◌, ◌↔◌, ◌∷◌, IfOk, IsTrue, Some, option_map, string_bytes};
ghost use Rattle.serde_json.specs.Find.{as_object};
ghost use Rattle.serde_json.specs.View.{members_view, view};
ghost use Rattle.json_form.specs.Nodes.{part_of};
ghost use Rattle.json_form.specs.TreeParts.{items_in, members_in};
ghost use Rattle.groupings.specs.least_fault.Least.{Among, IsLeast};
ghost use Rattle.layouts.specs.Faults.{fault_cmp};
ghost use Rattle.layouts.specs.Forms.{Fits, IsFaultOf, IsSetFlag};
ghost use Rattle.layouts.specs.Inside.{IsEntryFault, IsItemFault, IsMemberFault, IsPartFault, after};

use crate::fault::Fault;
use crate::form::{Entry, Form, Leaf, Shape};
use crate::leaf::is_leaf;
use crate::missing::Missing;
use crate::names::{entry_of, rows_of};
use crate::rule::Rule;
use emc_base::{Memory, Txt};
use groupings::{earlier, first_among};
use json_form::{Node, Step};
use serde_json::{Map, Value};
use std::alloc::Global;

/// The least fault of a node against its form: by the number of the rule, and then by the place, which begins at the node.
#[cycle(walk)]
pub fn first_fault(alloc: Global, form: Form, node: Node<'_>) -> Result<Option<Fault>, Memory>
    ensures { IfOk result (λ found. IsLeast fault_cmp (IsFaultOf form (part_of node.entry)) found) }
{
    if !fits(form, node) {
        return Ok(Some(Fault::here(alloc, Rule::HasForm)));
    }
    match form {
        Form::One(leaf) => Ok(fault_of_leaf(alloc, leaf, node)),
        Form::Object(shape) => first_in_object(alloc, shape, node),
        Form::Array(shape) | Form::Pair(shape) => first_in_items(alloc, Form::Object(shape), node),
        Form::List(leaf) => first_in_items(alloc, Form::One(leaf), node),
    }
}

// Whether a node is of a form, what stands in it aside.
fn fits(form: Form, node: Node<'_>) -> bool
    ensures { IsTrue result ↔ Fits form (part_of node.entry) }
{
    match form {
        Form::One(leaf) => is_leaf(leaf, node),
        Form::Object(_) => node.is_object(),
        Form::Array(_) | Form::List(_) => node.is_array(),
        Form::Pair(_) => node.is_array() && node.items().len() == 2,
    }
}

// The fault of a node that is what the leaf says: true, where that is left out.
fn fault_of_leaf(alloc: Global, leaf: Leaf, node: Node<'_>) -> Option<Fault>
    requires { Fits (Form.One leaf) (part_of node) }
    ensures { IsLeast fault_cmp (IsFaultOf (Form.One leaf) (part_of node.entry)) result }
{
    if is_set(leaf, node) {
        return Some(Fault::here(alloc, Rule::IsSupported));
    }
    None
}

// Whether true stands where it is left out.
fn is_set(leaf: Leaf, node: Node<'_>) -> bool
    ensures { IsTrue result ↔ IsSetFlag (Form.One leaf) (part_of node.entry) }
{
    matches!(leaf, Leaf::UnsetFlag) && node.flag() == Some(true)
}

// The least fault inside the items of an array, each of which has this form.
#[cycle(walk)]
fn first_in_items(alloc: Global, form: Form, node: Node<'_>) -> Result<Option<Fault>, Memory>
    ensures { IfOk result (λ found. IsLeast fault_cmp (Among (IsItemFault form) (items_in (part_of node.entry))) found) }
{
    let mut found = None;
    for (i, item) in node.items().iter().enumerate() {
        let inside = first_in_item(alloc, form, i, Node::new(item))?;
        found = earlier(found, inside);
    }
    Ok(found)
}

#[cycle(walk)]
fn first_in_item(
    alloc: Global,
    form: Form,
    i: usize,
    node: Node<'_>,
) -> Result<Option<Fault>, Memory>
    ensures { IfOk result (λ found. IsLeast fault_cmp (IsItemFault form i (part_of node.entry)) found) }
{
    let Ok(place) = u32::try_from(i) else {
        return Err(Memory);
    };
    match first_fault(alloc, form, node)? {
        None => Ok(None),
        Some(fault) => {
            let seen = fault.after(Step::Item(place))?;
            Ok(Some(seen))
        }
    }
}

// The least fault of an object: of the members that it lacks, and inside those that it has.
#[cycle(walk)]
fn first_in_object(alloc: Global, shape: Shape, node: Node<'_>) -> Result<Option<Fault>, Memory>
    requires { Fits (Form.Object shape) (part_of node) }
    ensures { IfOk result (λ found. IsLeast fault_cmp (IsFaultOf (Form.Object shape) (part_of node.entry)) found) }
{
    let missing = first_among(alloc, &Missing { shape, node }, rows_of(shape))?;
    let inside = match node.members() {
        Some(members) => first_in_members(alloc, shape, members)?,
        None => None,
    };
    Ok(earlier(missing, inside))
}

#[cycle(walk)]
fn first_in_members(
    alloc: Global,
    shape: Shape,
    members: &Map<String, Value>,
) -> Result<Option<Fault>, Memory>
    ensures { IfOk result (λ found. IsLeast fault_cmp (Among (IsEntryFault shape) members.now.entries) found) }
{
    let mut found = None;
    for (name, value) in members.iter() {
        let inside = first_in_member(alloc, shape, name.as_str(), Node::new(value))?;
        found = earlier(found, inside);
    }
    Ok(found)
}

// The least fault of a member that is there: that it may not be, or what is inside it.
#[cycle(walk)]
fn first_in_member(
    alloc: Global,
    shape: Shape,
    name: &str,
    node: Node<'_>,
) -> Result<Option<Fault>, Memory>
    ensures { IfOk result (λ found. IsLeast fault_cmp (IsMemberFault shape name.now (part_of node.entry)) found) }
{
    match first_in_part(alloc, shape, name, node)? {
        None => Ok(None),
        Some(fault) => after_member(alloc, fault, name),
    }
}

// The same fault, seen from the object whose member it is in.
fn after_member(alloc: Global, fault: Fault, name: &str) -> Result<Option<Fault>, Memory>
    ensures { IfOk result (λ seen. seen ≡ Some (after (Step.Member name.now) fault)) }
{
    let step = Step::Member(Txt::of(alloc, name)?);
    let seen = fault.after(step)?;
    Ok(Some(seen))
}

// The same, seen from the member.
#[cycle(walk)]
fn first_in_part(
    alloc: Global,
    shape: Shape,
    name: &str,
    node: Node<'_>,
) -> Result<Option<Fault>, Memory>
    ensures { IfOk result (λ found. IsLeast fault_cmp (IsPartFault shape name.now (part_of node.entry)) found) }
{
    match entry_of(shape, name) {
        Some(Entry::Required(form)) | Some(Entry::Optional(form)) => first_fault(alloc, form, node),
        Some(Entry::LeftOut) => Ok(Some(Fault::here(alloc, Rule::IsSupported))),
        None => Ok(Some(Fault::here(alloc, Rule::IsKnown))),
    }
}
