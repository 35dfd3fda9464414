ghost use Rattle.std.specs.Prelude.{◌≡◌, IfOk};
ghost use Rattle.json_form.specs.Nodes.{part_of};
ghost use Rattle.data_documents.specs.change_documents.Changes.{change_by, change_in, changes_in, entity_told, key_told, link_of, link_set_of, link_told, set_of};

use crate::change_documents::operation::{Operation, operation_in};
use crate::change_documents::sets::{element_of, link_set_in, set_in};
use crate::entity_documents::{ModelNames, entity_in, independent_at, key_in, link_in};
use edm_types::{Entity, EntityModel, Link};
use emc_base::{AssocId, Key, Memory, Seq, SetId};
use entity_changes::Change;
use json_form::Node;
use serde_json::Value as Tree;
use std::alloc::Global;

/// The changes that a node tells, in their order; none where it is no array.
pub fn changes_in(
    alloc: Global,
    names: &ModelNames<'_>,
    node: Node<'_>,
) -> Result<Seq<Change>, Memory>
    ensures { IfOk result (λ changes. changes ≡ changes_in names.now.model.now (part_of node.entry)) }
{
    let mut changes = Seq::empty(alloc);
    for item in node.items() {
        changes.push(change_in(alloc, names, Node::new(item))?)?;
    }
    Ok(changes)
}

// The change that a node tells; an insert where it tells no operation.
fn change_in(alloc: Global, names: &ModelNames<'_>, node: Node<'_>) -> Result<Change, Memory>
    ensures { IfOk result (λ change. change ≡ change_in names.now.model.now (part_of node.entry)) }
{
    let operation = operation_in(node).unwrap_or(Operation::Insert);
    change_by(alloc, names, operation, node)
}

// The change of an operation.
fn change_by(
    alloc: Global,
    names: &ModelNames<'_>,
    operation: Operation,
    node: Node<'_>,
) -> Result<Change, Memory>
    ensures { IfOk result (λ change. change ≡ change_by names.now.model.now operation (part_of node.entry)) }
{
    match operation {
        Operation::Insert => {
            let (set, entity) = entity_told(alloc, names, node)?;
            Ok(Change::Insert(set, entity))
        }
        Operation::Update => {
            let (set, entity) = entity_told(alloc, names, node)?;
            Ok(Change::Update(set, entity))
        }
        Operation::Delete => {
            let (set, key) = key_told(alloc, names, node)?;
            Ok(Change::Delete(set, key))
        }
        Operation::Link => {
            let (set, link) = link_told(alloc, names, node)?;
            Ok(Change::Link(set, link))
        }
        Operation::Unlink => {
            let (set, link) = link_told(alloc, names, node)?;
            Ok(Change::Unlink(set, link))
        }
    }
}

// The set that a change is about, and the entity that it tells.
fn entity_told(
    alloc: Global,
    names: &ModelNames<'_>,
    node: Node<'_>,
) -> Result<(SetId, Entity), Memory>
    ensures { IfOk result (λ told. told ≡ entity_told names.now.model.now (part_of node.entry)) }
{
    let set = set_of(names, node)?;
    let entity = match node.member("entity") {
        Some(member) => entity_in(alloc, names, member)?,
        None => entity_in(alloc, names, Node::new(&Tree::Null))?,
    };
    Ok((set, entity))
}

// The set that a change is about, and the key that it tells.
fn key_told(alloc: Global, names: &ModelNames<'_>, node: Node<'_>) -> Result<(SetId, Key), Memory>
    ensures { IfOk result (λ told. told ≡ key_told names.now.model.now (part_of node.entry)) }
{
    let set = set_of(names, node)?;
    let element = element_of(names.model, set);
    let key = match node.member("key") {
        Some(member) => key_in(alloc, names.model, element, member)?,
        None => key_in(alloc, names.model, element, Node::new(&Tree::Null))?,
    };
    Ok((set, key))
}

// The association set that a change is about, and the link that it tells.
fn link_told(
    alloc: Global,
    names: &ModelNames<'_>,
    node: Node<'_>,
) -> Result<(AssocId, Link), Memory>
    ensures { IfOk result (λ told. told ≡ link_told names.now.model.now (part_of node.entry)) }
{
    let set = link_set_of(names, node)?;
    let link = match node.member("link") {
        Some(member) => link_of(alloc, names.model, set, member)?,
        None => link_of(alloc, names.model, set, Node::new(&Tree::Null))?,
    };
    Ok((set, link))
}

// The entity set that a change is about; the first where it names none.
fn set_of(names: &ModelNames<'_>, node: Node<'_>) -> Result<SetId, Memory>
    ensures { IfOk result (λ set. set ≡ set_of names.now.model.now (part_of node.entry)) }
{
    Ok(set_in(names, node)?.unwrap_or(SetId { index: 0 }))
}

// The association set that a change is about; the first where it names none.
fn link_set_of(names: &ModelNames<'_>, node: Node<'_>) -> Result<AssocId, Memory>
    ensures { IfOk result (λ set. set ≡ link_set_of names.now.model.now (part_of node.entry)) }
{
    Ok(link_set_in(names, node)?.unwrap_or(AssocId { index: 0 }))
}

// The link of an association set; one without keys where the set isn't independent.
fn link_of(alloc: Global, model: &EntityModel, set: AssocId, node: Node<'_>) -> Result<Link, Memory>
    ensures { IfOk result (λ link. link ≡ link_of model.now set (part_of node.entry)) }
{
    match independent_at(model, set) {
        Some(assoc) => link_in(alloc, model, assoc, node),
        None => Ok(Link {
            first: Seq::empty(alloc),
            second: Seq::empty(alloc),
        }),
    }
}
