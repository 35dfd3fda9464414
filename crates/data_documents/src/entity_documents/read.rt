ghost use Rattle.std.specs.Prelude.{◌≡◌, IfOk, map};
ghost use Rattle.serde_json.specs.View.{view};
ghost use Rattle.json_form.specs.Nodes.{part_of};
ghost use Rattle.json_form.specs.from_nodes.Reading.{object_at};
ghost use Rattle.data_documents.specs.entity_documents.States.{entities_of, entity_in, entity_of, key_in, link_in, links_of, part_at, state_in, value_at};

use crate::entity_documents::members::{key_props, name_of, props_of, value_for};
use crate::entity_documents::names::ModelNames;
use edm_types::{Assoc, Entity, EntityModel, EntitySet, Link};
use emc_base::{Key, Memory, PropId, Seq, TypeId, Value};
use entity_state::EntityState;
use json_form::{Node, items_at};
use serde_json::Value as Tree;
use std::alloc::Global;

/// The state that a node holds; null, no key or no entities, where it is of another shape.
pub fn state_in(
    alloc: Global,
    names: &ModelNames<'_>,
    node: Node<'_>,
) -> Result<EntityState, Memory>
    ensures { IfOk result (λ state. state ≡ state_in names.now.model.now (part_of node.entry)) }
{
    let entities = entities_in(alloc, names, node)?;
    let links = links_in(alloc, names.model, node)?;
    Ok(EntityState::of_lists(entities, links))
}

// The entities of each set.
fn entities_in(
    alloc: Global,
    names: &ModelNames<'_>,
    node: Node<'_>,
) -> Result<Vec<Seq<Entity>>, Memory>
    ensures { IfOk result (λ lists. lists.items ≡ map (entities_of names.now.model.now (part_of node.entry)) names.now.model.now.sets) }
{
    let model = names.model;
    let mut lists = Vec::new(alloc);
    for set in model.sets.as_slice() {
        lists.push(entities_of(alloc, names, set, node)?)?;
    }
    Ok(lists)
}

// The entities of one set.
fn entities_of(
    alloc: Global,
    names: &ModelNames<'_>,
    set: &EntitySet,
    node: Node<'_>,
) -> Result<Seq<Entity>, Memory>
    ensures { IfOk result (λ entities. entities ≡ entities_of names.now.model.now (part_of node.entry) set.now) }
{
    let mut entities = Seq::empty(alloc);
    for item in items_at(node, set.name.as_str()) {
        entities.push(entity_in(alloc, names, Node::new(item))?)?;
    }
    Ok(entities)
}

/// The entity that a node holds; one of the first type, where it tells none.
pub fn entity_in(alloc: Global, names: &ModelNames<'_>, node: Node<'_>) -> Result<Entity, Memory>
    ensures { IfOk result (λ entity. entity ≡ entity_in names.now.model.now (part_of node.entry)) }
{
    let ty = names.type_in(node)?.unwrap_or(TypeId { index: 0 });
    entity_of(alloc, names.model, ty, node)
}

// The entity of a type that a node holds.
fn entity_of(
    alloc: Global,
    model: &EntityModel,
    ty: TypeId,
    node: Node<'_>,
) -> Result<Entity, Memory>
    ensures { IfOk result (λ entity. entity ≡ entity_of model.now ty (part_of node.entry)) }
{
    let values = values_in(alloc, model, props_of(model, ty), node)?;
    Ok(Entity { ty, values })
}

// A value for each property.
fn values_in(
    alloc: Global,
    model: &EntityModel,
    props: &[PropId],
    node: Node<'_>,
) -> Result<Seq<Value>, Memory>
    ensures { IfOk result (λ values. values ≡ map (value_at model.now (part_of node.entry)) props.now) }
{
    let mut values = Seq::with_room(alloc, props.len())?;
    for prop in props {
        values.push(value_at(alloc, model, *prop, node)?)?;
    }
    Ok(values)
}

// The value of an entity object's member for a property.
fn value_at(
    alloc: Global,
    model: &EntityModel,
    prop: PropId,
    node: Node<'_>,
) -> Result<Value, Memory>
    ensures { IfOk result (λ value. value ≡ value_at model.now (part_of node.entry) prop) }
{
    let Some(member) = node.member(name_of(model, prop)) else {
        return Ok(Value::Null);
    };
    let value = value_for(alloc, model, prop, member)?;
    Ok(value.unwrap_or(Value::Null))
}

/// The key that a node holds; null for each part that it gives no value for.
pub fn key_in(alloc: Global, model: &EntityModel, ty: TypeId, node: Node<'_>) -> Result<Key, Memory>
    ensures { IfOk result (λ key. key ≡ key_in model.now ty (part_of node.entry)) }
{
    let props = key_props(model, ty);
    let mut key = Seq::with_room(alloc, props.len())?;
    for (place, prop) in props.iter().enumerate() {
        key.push(part_at(alloc, model, place, *prop, node)?)?;
    }
    Ok(key)
}

// The value of the item at a place for a property.
fn part_at(
    alloc: Global,
    model: &EntityModel,
    place: usize,
    prop: PropId,
    node: Node<'_>,
) -> Result<Value, Memory>
    ensures { IfOk result (λ value. value ≡ part_at model.now (part_of node.entry) (place, prop)) }
{
    let Some(part) = node.item(place) else {
        return Ok(Value::Null);
    };
    let value = value_for(alloc, model, prop, part)?;
    Ok(value.unwrap_or(Value::Null))
}

// The links of each association set.
fn links_in(alloc: Global, model: &EntityModel, node: Node<'_>) -> Result<Vec<Seq<Link>>, Memory>
    ensures { IfOk result (λ lists. lists.items ≡ map (links_of model.now (part_of node.entry)) model.now.assocs) }
{
    let mut lists = Vec::new(alloc);
    for assoc in model.assocs.as_slice() {
        lists.push(links_of(alloc, model, assoc, node)?)?;
    }
    Ok(lists)
}

// The links of one association set.
fn links_of(
    alloc: Global,
    model: &EntityModel,
    assoc: &Assoc,
    node: Node<'_>,
) -> Result<Seq<Link>, Memory>
    ensures { IfOk result (λ links. links ≡ links_of model.now (part_of node.entry) assoc.now) }
{
    if assoc.constraint.is_some() {
        return Ok(Seq::empty(alloc));
    }
    stored_links(alloc, model, assoc, items_at(node, assoc.set_name.as_str()))
}

// The links that some nodes hold.
fn stored_links(
    alloc: Global,
    model: &EntityModel,
    assoc: &Assoc,
    items: &[Tree],
) -> Result<Seq<Link>, Memory>
    ensures { IfOk result (λ links. links ≡ map (link_in model.now assoc.now) (map view items.now)) }
{
    let mut links = Seq::empty(alloc);
    for item in items {
        links.push(link_in(alloc, model, assoc, Node::new(item))?)?;
    }
    Ok(links)
}

/// The link that a node holds.
pub fn link_in(
    alloc: Global,
    model: &EntityModel,
    assoc: &Assoc,
    node: Node<'_>,
) -> Result<Link, Memory>
    ensures { IfOk result (λ link. link ≡ link_in model.now assoc.now (part_of node.entry)) }
{
    let first = key_at(
        alloc,
        model,
        assoc.first.ty,
        node,
        assoc.first.role.as_str(),
    )?;
    let second = key_at(
        alloc,
        model,
        assoc.second.ty,
        node,
        assoc.second.role.as_str(),
    )?;
    Ok(Link { first, second })
}

// The key that the member of this name holds; that of null where there is none.
fn key_at(
    alloc: Global,
    model: &EntityModel,
    ty: TypeId,
    node: Node<'_>,
    name: &str,
) -> Result<Key, Memory>
    ensures { IfOk result (λ key. key ≡ key_in model.now ty (object_at name.now (part_of node.entry))) }
{
    match node.member(name) {
        Some(member) => key_in(alloc, model, ty, member),
        None => key_in(alloc, model, ty, Node::new(&Tree::Null)),
    }
}
