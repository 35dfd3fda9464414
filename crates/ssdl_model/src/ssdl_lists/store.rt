ghost use Rattle.std.specs.Prelude.{◌≡◌, IfOk, codes, map};
ghost use Rattle.json_form.specs.Nodes.{part_of};
ghost use Rattle.json_form.specs.from_nodes.Reading.{items_at, object_at, optional_text_at, text_at};
ghost use Rattle.ssdl_model.specs.ssdl_lists.RawStore.{raw_store, raw_table, raw_tables};

use csdl_names::{RawContainer, RawModel, RawType};
use emc_base::{Memory, Seq, Txt, both};
use json_form::{Node, items_at, list_at, optional_text_at, text_at, texts_at};
use serde_json::Value;
use std::alloc::Global;

/// Reads an SSDL document as the lists of a CSDL document.
pub fn read_store(alloc: Global, node: Node<'_>) -> Result<RawModel, Memory>
    ensures { IfOk result (λ store. store ≡ raw_store (part_of node.entry)) }
{
    let names = read_names(alloc, node);
    let container = read_container(alloc, node);
    let types = read_types(alloc, node);
    let associations = list_at(alloc, node, "Association");
    let (head, tail) = both(both(names, container), both(types, associations))?;
    let ((namespace, alias), container) = head;
    let (types, associations) = tail;
    Ok(RawModel {
        namespace,
        alias,
        container,
        types,
        enums: Seq::empty(alloc),
        associations,
    })
}

// The Namespace, and the Alias where there is one.
fn read_names(alloc: Global, node: Node<'_>) -> Result<(Txt, Option<Txt>), Memory>
    ensures { IfOk result (λ names. names ≡ (text_at (codes "Namespace") (part_of node.entry), optional_text_at (codes "Alias") (part_of node.entry))) }
{
    let namespace = text_at(alloc, node, "Namespace")?;
    let alias = optional_text_at(alloc, node, "Alias")?;
    Ok((namespace, alias))
}

// The EntityContainer, whose association sets are passed over.
fn read_container(alloc: Global, node: Node<'_>) -> Result<RawContainer, Memory>
    ensures { IfOk result (λ container. container ≡ raw_tables (object_at (codes "EntityContainer") (part_of node.entry))) }
{
    match node.member("EntityContainer") {
        Some(container) => read_tables(alloc, container),
        None => read_tables(alloc, Node::new(&Value::Null)),
    }
}

// What is read of it.
fn read_tables(alloc: Global, node: Node<'_>) -> Result<RawContainer, Memory>
    ensures { IfOk result (λ container. container ≡ raw_tables (part_of node.entry)) }
{
    let name = text_at(alloc, node, "Name")?;
    let sets = list_at(alloc, node, "EntitySet")?;
    Ok(RawContainer {
        name,
        sets,
        association_sets: Seq::empty(alloc),
    })
}

// The EntityTypes.
fn read_types(alloc: Global, node: Node<'_>) -> Result<Seq<RawType>, Memory>
    ensures { IfOk result (λ types. types ≡ map raw_table (items_at (codes "EntityType") (part_of node.entry))) }
{
    let mut types = Seq::empty(alloc);
    for item in items_at(node, "EntityType") {
        types.push(read_type(alloc, Node::new(item))?)?;
    }
    Ok(types)
}

// An EntityType.
fn read_type(alloc: Global, node: Node<'_>) -> Result<RawType, Memory>
    ensures { IfOk result (λ table. table ≡ raw_table (part_of node.entry)) }
{
    let name = text_at(alloc, node, "Name");
    let key = texts_at(alloc, node, "Key");
    let props = list_at(alloc, node, "Property");
    let (name, (key, props)) = both(name, both(key, props))?;
    Ok(RawType {
        name,
        base: None,
        is_abstract: false,
        key: Some(key),
        props,
        navs: Seq::empty(alloc),
    })
}
