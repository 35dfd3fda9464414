ghost use Rattle.round_trip.specs.Words.{IsState};
ghost use Rattle.entity_changes.specs.Applying.{AreGoodChanges};

use crate::data::{DataKind, Refusal, put_judged};
use crate::models::put_printed;
use crate::printing::put_text;
use csdl_model::read_csdl;
use data_documents::{ShapeFault, changes_of_doc, state_of_doc};
use edm_types::EntityModel;
use emc_base::Seq;
use entity_changes::{ApplyFault, Change, apply};
use entity_state::EntityState;
use json_form::Doc;
use std::alloc::Global;
use texts::{change_shape_text, refused_text};

/// Puts the state that changes of entities and links lead to; or a line for the first that is refused, or for changes or entities of another shape, or the rule
/// that the model's document breaks.
pub fn put_changed(
    alloc: Global,
    text: &mut String,
    csdl: &Doc,
    entities: &Doc,
    changes: &Doc,
) -> Option<()> {
    match read_csdl(alloc, csdl) {
        Ok(model) => {
            let put = put_by_model(alloc, text, &model, entities, changes);
            drop(model);
            put
        }
        Err(fault) => put_judged(
            alloc,
            text,
            DataKind::Entities,
            Err(Refusal::Vocabulary(fault)),
        ),
    }
}

// The same by what the model's document means.
fn put_by_model(
    alloc: Global,
    text: &mut String,
    model: &EntityModel,
    entities: &Doc,
    changes: &Doc,
) -> Option<()> {
    match state_of_doc(alloc, entities, model) {
        Ok(state) => {
            let put = put_from(alloc, text, model, &state, changes);
            drop(state);
            put
        }
        Err(fault) => put_judged(alloc, text, DataKind::Entities, Err(Refusal::Shape(fault))),
    }
}

// The same by the state before.
fn put_from(
    alloc: Global,
    text: &mut String,
    model: &EntityModel,
    state: &EntityState,
    changes: &Doc,
) -> Option<()>
    requires { IsState model.now state.now }
{
    match changes_of_doc(alloc, changes, model) {
        Ok(changes) => {
            let put = put_afterwards(alloc, text, model, state, &changes);
            drop(changes);
            put
        }
        Err(ShapeFault::Shape(pointer)) => {
            let told = change_shape_text(alloc, pointer.as_str());
            drop(pointer);
            put_text(text, told)
        }
        Err(ShapeFault::Memory) => None,
    }
}

// The same by the changes.
fn put_afterwards(
    alloc: Global,
    text: &mut String,
    model: &EntityModel,
    state: &EntityState,
    changes: &Seq<Change>,
) -> Option<()>
    requires { AreGoodChanges model.now state.now changes.now }
{
    match apply(alloc, model, changes, state) {
        Ok(new) => {
            let put = put_printed(alloc, text, model, &new);
            drop(new);
            put
        }
        Err(ApplyFault::Refused { index, reason }) => {
            put_text(text, refused_text(alloc, index, reason))
        }
        Err(ApplyFault::Memory) => None,
    }
}
