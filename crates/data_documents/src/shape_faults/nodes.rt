ghost use Rattle.std.specs.Prelude.{◌≡◌, ◌∷◌, [], IfOk, IsSome, IsTrue, map, option_map};
ghost use Rattle.serde_json.specs.Find.{as_array, as_object};
ghost use Rattle.serde_json.specs.View.{view};
ghost use Rattle.json_form.specs.Nodes.{part_of};
ghost use Rattle.json_form.specs.TreeParts.{items_in};
ghost use Rattle.groupings.specs.least_fault.Least.{Among, IsLeast};
ghost use Rattle.data_documents.specs.declared.shape_faults.place.ShapeStep.TheVariants.{Item, Member};
ghost use Rattle.data_documents.specs.shape_faults.Entries.{InEntries};
ghost use Rattle.data_documents.specs.shape_faults.Nodes.{Behind, InItems, IsArrayFault, IsLack, IsObjectFault};
ghost use Rattle.data_documents.specs.shape_faults.Places.{place_cmp};

use crate::shape_faults::place::{ShapePlace, ShapeStep};
use crate::shape_faults::search::{MemberSearch, NodeSearch};
use emc_base::{Memory, Txt};
use groupings::earlier;
use json_form::Node;
use serde_json::{Map, Value};
use std::alloc::Global;

/// The node itself, where it is wrong.
pub fn here_if(alloc: Global, is_wrong: bool) -> Option<ShapePlace>
    ensures { IsLeast place_cmp (λ place. IsTrue is_wrong × (place ≡ [])) result }
{
    if !is_wrong {
        return None;
    }
    Some(ShapePlace::here(alloc))
}

/// The first place at which something is wrong in an array: it is the node itself, where that is no array.
pub fn first_in_array<S: NodeSearch>(
    alloc: Global,
    search: &S,
    node: Node<'_>,
) -> Result<Option<ShapePlace>, Memory>
    ensures { IfOk result (λ found. IsLeast place_cmp (IsArrayFault (S.wrong search.now) (part_of node.entry)) found) }
{
    if !node.is_array() {
        return Ok(Some(ShapePlace::here(alloc)));
    }
    first_in_items(alloc, search, node)
}

// The first place at which something is wrong with an item of an array.
fn first_in_items<S: NodeSearch>(
    alloc: Global,
    search: &S,
    node: Node<'_>,
) -> Result<Option<ShapePlace>, Memory>
    requires { IsSome (as_array (part_of node)) }
    ensures { IfOk result (λ found. IsLeast place_cmp (IsArrayFault (S.wrong search.now) (part_of node.entry)) found) }
{
    let mut found = None;
    for (place, item) in node.items().iter().enumerate() {
        found = earlier(found, first_in_item(alloc, search, place, item)?);
    }
    Ok(found)
}

// The same of the item at a place, seen from the array.
fn first_in_item<S: NodeSearch>(
    alloc: Global,
    search: &S,
    place: usize,
    item: &Value,
) -> Result<Option<ShapePlace>, Memory>
    ensures { IfOk result (λ found. IsLeast place_cmp (Behind (Item place) (S.wrong search.now (view item.now))) found) }
{
    match search.find(alloc, Node::new(item))? {
        None => Ok(None),
        Some(inside) => {
            let Ok(step) = u32::try_from(place) else {
                return Err(Memory);
            };
            let seen = inside.after(ShapeStep::Item(step))?;
            Ok(Some(seen))
        }
    }
}

/// The first place at which something is wrong in an object, missing members aside: it is the node itself, where that is no object.
pub fn first_in_object<S: MemberSearch>(
    alloc: Global,
    search: &S,
    node: Node<'_>,
) -> Result<Option<ShapePlace>, Memory>
    ensures { IfOk result (λ found. IsLeast place_cmp (IsObjectFault (S.wrong search.now) (part_of node.entry)) found) }
{
    match node.members() {
        None => Ok(Some(ShapePlace::here(alloc))),
        Some(members) => first_in_members(alloc, search, members),
    }
}

// The first place at which something is wrong with a member that is there.
fn first_in_members<S: MemberSearch>(
    alloc: Global,
    search: &S,
    members: &Map<String, Value>,
) -> Result<Option<ShapePlace>, Memory>
    ensures { IfOk result (λ found. IsLeast place_cmp (InEntries (S.wrong search.now) members.now.entries) found) }
{
    let mut found = None;
    for (name, value) in members.iter() {
        found = earlier(found, first_in_member(alloc, search, name.as_str(), value)?);
    }
    Ok(found)
}

// The same of one member, seen from the object.
fn first_in_member<S: MemberSearch>(
    alloc: Global,
    search: &S,
    name: &str,
    value: &Value,
) -> Result<Option<ShapePlace>, Memory>
    ensures { IfOk result (λ found. IsLeast place_cmp (Behind (Member name.now) (S.wrong search.now name.now (view value.now))) found) }
{
    match search.find(alloc, name, Node::new(value))? {
        None => Ok(None),
        Some(inside) => {
            let name = Txt::of(alloc, name)?;
            let seen = inside.after(ShapeStep::Member(name))?;
            Ok(Some(seen))
        }
    }
}

/// Where an object lacks the member of this name, which has this rank among those that there should be. What is no object lacks none.
pub fn first_lack(
    alloc: Global,
    rank: usize,
    name: &str,
    node: Node<'_>,
) -> Result<Option<ShapePlace>, Memory>
    ensures { IfOk result (λ found. IsLeast place_cmp (IsLack rank name.now (part_of node.entry)) found) }
{
    if !node.is_object() || node.member(name).is_some() {
        return Ok(None);
    }
    let Ok(rank) = u32::try_from(rank) else {
        return Err(Memory);
    };
    let name = Txt::of(alloc, name)?;
    let place = ShapePlace::here(alloc).after(ShapeStep::Missing(rank, name))?;
    Ok(Some(place))
}
