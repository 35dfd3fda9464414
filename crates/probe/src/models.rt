ghost use Rattle.round_trip.specs.Words.{IsState};
ghost use Rattle.round_trip.specs.soundness.models.Models.{IsSoundModel};

mod nodes;

use crate::asked::Asked;
use crate::data::{DataKind, judge_entities, judge_tables, put_judged};
use crate::printing::{put, put_bytes};
use csdl_model::read_csdl;
use data_documents::state_of_doc;
use edm_types::{EntityModel, Link, subtree};
use emc_base::{AssocId, Seq, TypeId};
use entity_state::EntityState;
use json_form::Doc;
use nodes::put_nodes;
use std::alloc::Global;

/// Puts what is asked of a document of data.
pub fn put_of_data(
    alloc: Global,
    text: &mut String,
    asked: Asked,
    vocabulary: &Doc,
    data: &Doc,
) -> Option<()> {
    match asked {
        Asked::Entities => {
            let judged = judge_entities(alloc, vocabulary, data);
            put_judged(alloc, text, DataKind::Entities, judged)
        }
        Asked::Tables => {
            let judged = judge_tables(alloc, vocabulary, data);
            put_judged(alloc, text, DataKind::Tables, judged)
        }
        _ => put_of_model(alloc, text, asked, vocabulary, Some(data)),
    }
}

/// Puts what is asked of a model, and of a document of data where there is one.
pub fn put_of_model(
    alloc: Global,
    text: &mut String,
    asked: Asked,
    csdl: &Doc,
    data: Option<&Doc>,
) -> Option<()> {
    match read_csdl(alloc, csdl) {
        Ok(model) => {
            let put = put_by_model(alloc, text, asked, &model, data);
            drop(model);
            put
        }
        Err(_) => None,
    }
}

// The same by what the model's document means.
fn put_by_model(
    alloc: Global,
    text: &mut String,
    asked: Asked,
    model: &EntityModel,
    data: Option<&Doc>,
) -> Option<()>
    requires { IsSoundModel model.now }
{
    match (asked, data) {
        (Asked::State, Some(data)) => put_state(alloc, text, model, data),
        (Asked::Nodes, Some(data)) => put_nodes(alloc, text, model, data),
        (Asked::Below, None) => put_below(alloc, text, model),
        (Asked::Added, None) => put_added(alloc, text, model),
        _ => None,
    }
}

// Puts the state that a document holds.
fn put_state(alloc: Global, text: &mut String, model: &EntityModel, data: &Doc) -> Option<()> {
    let state = state_of_doc(alloc, data, model).ok()?;
    let put = put_printed(alloc, text, model, &state);
    drop(state);
    put
}

/// Puts a state as it is printed.
pub fn put_printed(
    alloc: Global,
    text: &mut String,
    model: &EntityModel,
    state: &EntityState,
) -> Option<()>
    requires { IsState model.now state.now }
{
    let printed = state.to_doc(alloc, model).ok()?;
    let bytes = printed.bytes(alloc).ok();
    drop(printed);
    let bytes = bytes?;
    let put = put_bytes(text, bytes.as_slice());
    drop(bytes);
    put
}

// Puts a line for each type, with the types that it is or that stand below it.
fn put_below(alloc: Global, text: &mut String, model: &EntityModel) -> Option<()>
    requires { IsSoundModel model.now }
{
    for place in 0..model.types.len() {
        let ty = TypeId {
            index: place as u32,
        };
        put_subtree(alloc, text, model, ty)?;
    }
    Some(())
}

// Puts a line for a type.
fn put_subtree(alloc: Global, text: &mut String, model: &EntityModel, ty: TypeId) -> Option<()>
    requires { IsSoundModel model.now }
{
    let found = subtree(alloc, model, ty).ok()?;
    for below in found.as_slice() {
        put(alloc, text, " ", u64::from(below.index))?;
    }
    text.push_str("\n").ok()
}

// Puts how many links each association set has, once a link is added to the second of an empty state.
fn put_added(alloc: Global, text: &mut String, model: &EntityModel) -> Option<()> {
    let mut state = EntityState::empty(alloc, model).ok()?;
    if state.link_lists().len() < 2 {
        return None;
    }
    let link = Link {
        first: Seq::empty(alloc),
        second: Seq::empty(alloc),
    };
    state.insert_link(AssocId { index: 1 }, link).ok()?;
    let put = put_lengths(alloc, text, &state);
    drop(state);
    put
}

// Puts how many links each association set has.
fn put_lengths(alloc: Global, text: &mut String, state: &EntityState) -> Option<()> {
    for links in state.link_lists() {
        put(alloc, text, " ", links.len() as u64)?;
    }
    text.push_str("\n").ok()
}
