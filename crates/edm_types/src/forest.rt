ghost use Rattle.std.specs.Prelude.{◌≡◌, ◌↔◌, ◌<◌, ◌^◌, ◌∷◌, [], IfOk, IsTrue, length, map};
ghost use Rattle.std.specs.Option.{option_copied};
ghost use Rattle.emc_base.specs.Lists.{places_of};
ghost use Rattle.edm_types.specs.Forest.{HasNode, HoldsEachType, IsForest, IsSubtree, type_numbered};
ghost use Rattle.edm_types.specs.Marks.{AddsMarks, IsNodeFor};
ghost use Rattle.edm_types.specs.IsA.{IsA};

use crate::model::{EntityModel, TypeNode};
use emc_base::{Memory, Seq, TypeId};
use std::alloc::Global;

/// Whether a type is another or derived from it. It takes no memory, and time linear in the number of types.
pub fn is_of(model: &EntityModel, t: TypeId, u: TypeId) -> bool
    requires forest { IsForest model.now model.now.forest }
    requires whole { HoldsEachType model.now model.now.forest }
    ensures { IsTrue result ↔ IsA model.now t u }
{
    match node_among(model.forest.as_slice(), u) {
        Some(node) => has_node(node, t),
        None => t == u,
    }
}

/// A type and all types that are derived from it, each once, in the order of the model's types. The time is linear in the number of types.
/// `Memory` comes where memory ran out.
pub fn subtree(alloc: Global, model: &EntityModel, t: TypeId) -> Result<Seq<TypeId>, Memory>
    requires forest { IsForest model.now model.now.forest }
    requires whole { HoldsEachType model.now model.now.forest }
    ensures { IfOk result (IsSubtree model.now t) }
{
    let mut marks = vec![in alloc; false; model.types.len()]?;
    if let Some(node) = node_among(model.forest.as_slice(), t) {
        mark_all(node, &mut marks);
    }
    marked_types(alloc, marks.as_slice())
}

// A node of a type in some trees.
fn node_among<'m>(trees: &'m [TypeNode], t: TypeId) -> Option<&'m TypeNode>
    ensures { IsNodeFor trees.now t (option_copied result) }
{
    for tree in trees {
        if let Some(node) = node_in(tree, t) {
            return Some(node);
        }
    }
    None
}

// A node of a type in a tree.
fn node_in<'m>(tree: &'m TypeNode, t: TypeId) -> Option<&'m TypeNode>
    ensures { IsNodeFor (tree.now ∷ []) t (option_copied result) }
{
    if tree.id == t {
        return Some(tree);
    }
    for child in tree.children.as_slice() {
        if let Some(found) = node_in(child, t) {
            return Some(found);
        }
    }
    None
}

// Whether a node of a type stands in a tree.
fn has_node(tree: &TypeNode, t: TypeId) -> bool
    ensures { IsTrue result ↔ HasNode (tree.now ∷ []) t }
{
    node_in(tree, t).is_some()
}

// Marks the places of all types of a tree.
fn mark_all(tree: &TypeNode, marks: &mut Vec<bool>)
    ensures { AddsMarks (λ i. HasNode (tree.now ∷ []) (type_numbered i)) marks.old.items marks.new.items }
{
    mark(marks, tree.id.index as usize);
    for child in tree.children.as_slice() {
        mark_all(child, marks);
    }
}

// Marks a place, if it is one.
fn mark(marks: &mut Vec<bool>, place: usize)
    ensures { AddsMarks (λ i. i ≡ place) marks.old.items marks.new.items }
{
    if place < marks.len() {
        marks[place] = true;
    }
}

// The types at the marked places.
fn marked_types(alloc: Global, marks: &[bool]) -> Result<Seq<TypeId>, Memory>
    requires { length marks.now < 2 ^ 32 }
    ensures { IfOk result (λ types. types ≡ map type_numbered (places_of (λ mark. mark) marks.now)) }
{
    let mut types = Seq::empty(alloc);
    for (place, marked) in marks.iter().enumerate() {
        if *marked {
            types.push(TypeId {
                index: place as u32,
            })?;
        }
    }
    Ok(types)
}
