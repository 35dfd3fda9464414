ghost use Rattle.std.specs.Prelude.{◌≡◌, ◌++◌, IfOk};
ghost use Rattle.json_form.specs.Documents.{tree_of};
ghost use Rattle.json_form.specs.Nodes.{part_of};
ghost use Rattle.data_documents.specs.shape_faults.Places.{pointer_of_place};
ghost use Rattle.data_documents.specs.entity_documents.Reading.{ReadsEntity, ReadsKey, ReadsLink, ReadsState};

use crate::entity_documents::doc_shape::first_fault;
use crate::entity_documents::entity_shape::first_in_entity;
use crate::entity_documents::link_shape::{first_in_key, first_in_link};
use crate::entity_documents::members::independent_at;
use crate::entity_documents::names::ModelNames;
use crate::entity_documents::read::{entity_in, key_in, link_in, state_in};
use crate::shape_faults::{ShapeFault, ShapePlace};
use edm_types::{Entity, EntityModel, Link};
use emc_base::{AssocId, Key, Memory, Txt, TypeId};
use entity_state::EntityState;
use json_form::{Doc, Node};
use std::alloc::Global;

/// The state of a document: for each entity set of the model and for each association set, in their order, the entities and the links of
/// its member in theirs. An association set with a constraint has no links of its own, and no member. `Shape` comes exactly where the
/// document is of another shape, with the pointer of the first place where that is so: in the order of the document, where members stand
/// in byte order of their names, and what an object lacks comes after what it has. Of an entity object that tells no type nothing but
/// that is told.
pub fn state_of_doc(
    alloc: Global,
    doc: &Doc,
    model: &EntityModel,
) -> Result<EntityState, ShapeFault>
    ensures { ReadsState model.now (tree_of doc.now) result }
{
    let names = ModelNames::of(alloc, model)?;
    let state = state_of_root(alloc, &names, doc.root());
    drop(names);
    state
}

// The state of a document, by its root and the names of the model.
fn state_of_root(
    alloc: Global,
    names: &ModelNames<'_>,
    root: Node<'_>,
) -> Result<EntityState, ShapeFault>
    ensures { ReadsState names.now.model.now (part_of root.entry) result }
{
    if let Some(place) = first_fault(alloc, names, root)? {
        return Err(ShapeFault::Shape(place.pointer(alloc)?));
    }
    let state = state_in(alloc, names, root)?;
    Ok(state)
}

/// The entity of an object that stands at a place of a document, by its pointer. `Shape` comes exactly where the object is of another
/// shape, with the pointer of the first place in it where that is so.
pub fn entity_of_node(
    alloc: Global,
    names: &ModelNames<'_>,
    node: Node<'_>,
    at: &Txt,
) -> Result<Entity, ShapeFault>
    ensures { ReadsEntity names.now.model.now (part_of node.entry) at.now result }
{
    if let Some(place) = first_in_entity(alloc, names, node)? {
        return Err(ShapeFault::Shape(pointer_behind(alloc, at, &place)?));
    }
    let entity = entity_in(alloc, names, node)?;
    Ok(entity)
}

/// The key of a type that an array holds which stands at a place of a document. `Shape` comes as for [`entity_of_node`]: at the node
/// itself where it isn't an array of as many items as the key has parts, and else at the first item that is of another form.
pub fn key_of_node(
    alloc: Global,
    names: &ModelNames<'_>,
    ty: TypeId,
    node: Node<'_>,
    at: &Txt,
) -> Result<Key, ShapeFault>
    ensures { ReadsKey names.now.model.now ty (part_of node.entry) at.now result }
{
    let model = names.model;
    if let Some(place) = first_in_key(alloc, model, ty, node)? {
        return Err(ShapeFault::Shape(pointer_behind(alloc, at, &place)?));
    }
    let key = key_in(alloc, model, ty, node)?;
    Ok(key)
}

/// The link of an association set that an object holds which stands at a place of a document. `Shape` comes as for [`entity_of_node`],
/// and at the node itself where there is no such association set, or it has a constraint.
pub fn link_of_node(
    alloc: Global,
    names: &ModelNames<'_>,
    assoc: AssocId,
    node: Node<'_>,
    at: &Txt,
) -> Result<Link, ShapeFault>
    ensures { ReadsLink names.now.model.now assoc (part_of node.entry) at.now result }
{
    let model = names.model;
    let found = independent_at(model, assoc);
    if let Some(place) = first_in_link(alloc, model, found, node)? {
        return Err(ShapeFault::Shape(pointer_behind(alloc, at, &place)?));
    }
    let Some(found) = found else { unreachable!() };
    let link = link_in(alloc, model, found, node)?;
    Ok(link)
}

// The pointer of a place that is seen from a node with this pointer.
fn pointer_behind(alloc: Global, at: &Txt, place: &ShapePlace) -> Result<Txt, Memory>
    ensures { IfOk result (λ pointer. pointer ≡ at.now ++ pointer_of_place place.now) }
{
    let inside = place.pointer(alloc)?;
    let outside = at.as_str();
    let inside = inside.as_str();
    let text = format!(in alloc; "{outside}{inside}")?;
    Ok(Txt::from_string(text))
}
