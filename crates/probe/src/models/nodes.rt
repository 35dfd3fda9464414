use crate::printing::{put_entity_line, put_values};
use data_documents::{ModelNames, ShapeFault, entity_of_node, key_of_node, link_of_node};
use edm_types::{EntityModel, Link};
use emc_base::{AssocId, Txt, TypeId};
use json_form::Doc;
use std::alloc::Global;

/// Puts what a document holds that stands at `/Inserts/0` of another: a line for it as an entity, one for it as a key of each type, and one for
/// it as a link of each association set. Where it is of another shape, the line has the place.
pub fn put_nodes(alloc: Global, text: &mut String, model: &EntityModel, data: &Doc) -> Option<()> {
    let names = ModelNames::of(alloc, model).ok()?;
    let put = put_by_names(alloc, text, &names, data);
    drop(names);
    put
}

// The same by the names of the model.
fn put_by_names(
    alloc: Global,
    text: &mut String,
    names: &ModelNames<'_>,
    data: &Doc,
) -> Option<()> {
    let at = Txt::of(alloc, "/Inserts/0").ok()?;
    put_each(alloc, text, names, data, &at)
}

// The same with the place at which the document stands.
fn put_each(
    alloc: Global,
    text: &mut String,
    names: &ModelNames<'_>,
    data: &Doc,
    at: &Txt,
) -> Option<()> {
    put_entity(alloc, text, names, data, at)?;
    for place in 0..names.model.types.len() {
        let ty = TypeId {
            index: place as u32,
        };
        put_key(alloc, text, names, ty, data, at)?;
    }
    put_links(alloc, text, names, data, at)
}

// Puts the lines of all association sets.
fn put_links(
    alloc: Global,
    text: &mut String,
    names: &ModelNames<'_>,
    data: &Doc,
    at: &Txt,
) -> Option<()> {
    for place in 0..names.model.assocs.len() {
        let assoc = AssocId {
            index: place as u32,
        };
        put_link(alloc, text, names, assoc, data, at)?;
    }
    Some(())
}

// Puts the line of an entity.
fn put_entity(
    alloc: Global,
    text: &mut String,
    names: &ModelNames<'_>,
    data: &Doc,
    at: &Txt,
) -> Option<()> {
    text.push_str("entity ").ok()?;
    match entity_of_node(alloc, names, data.root(), at) {
        Ok(entity) => {
            let put = put_entity_line(alloc, text, &entity);
            drop(entity);
            put
        }
        Err(fault) => put_fault(text, fault),
    }
}

// Puts the line of a key.
fn put_key(
    alloc: Global,
    text: &mut String,
    names: &ModelNames<'_>,
    ty: TypeId,
    data: &Doc,
    at: &Txt,
) -> Option<()> {
    text.push_str("key ").ok()?;
    match key_of_node(alloc, names, ty, data.root(), at) {
        Ok(key) => {
            let put = put_values(alloc, text, &key);
            drop(key);
            put?;
            text.push_str("\n").ok()
        }
        Err(fault) => put_fault(text, fault),
    }
}

// Puts the line of a link.
fn put_link(
    alloc: Global,
    text: &mut String,
    names: &ModelNames<'_>,
    assoc: AssocId,
    data: &Doc,
    at: &Txt,
) -> Option<()> {
    text.push_str("link ").ok()?;
    match link_of_node(alloc, names, assoc, data.root(), at) {
        Ok(link) => {
            let put = put_ends(alloc, text, &link);
            drop(link);
            put
        }
        Err(fault) => put_fault(text, fault),
    }
}

// Puts the ends of a link, and ends the line.
fn put_ends(alloc: Global, text: &mut String, link: &Link) -> Option<()> {
    put_values(alloc, text, &link.first)?;
    put_values(alloc, text, &link.second)?;
    text.push_str("\n").ok()
}

// Puts the place of a fault, and ends the line.
fn put_fault(text: &mut String, fault: ShapeFault) -> Option<()> {
    match fault {
        ShapeFault::Shape(pointer) => {
            let put = text.push_str(pointer.as_str()).ok();
            drop(pointer);
            put?;
            text.push_str("\n").ok()
        }
        ShapeFault::Memory => None,
    }
}
