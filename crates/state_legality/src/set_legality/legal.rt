ghost use Rattle.std.specs.Prelude.{◌≡◌, ◌↔◌, ◌<◌, All, IsTrue, length};
ghost use Rattle.round_trip.specs.Words.{HasFittingType, IsLegalSet, key_of};
ghost use Rattle.round_trip.specs.soundness.models.Models.{IsSoundModel};
ghost use Rattle.entity_state.specs.breach_order.Repeats.{IsRepeat};
ghost use Rattle.state_legality.specs.set_legality.Props.{FitsAt, FitsProps};
ghost use Rattle.state_legality.specs.set_legality.Tells.{AreLegalSets, FitsSet, HaveLegalSets, KeysApart};

use crate::set_legality::types::{is_concrete, key_at, props_at};
use crate::set_legality::values::broken_rule;
use edm_types::{Entity, EntityModel, EntitySet, is_of};
use emc_base::{PropId, Seq};
use entity_state::{have_same_values, list_at};

/// Whether the entity sets keep S1 to S4. It takes no memory, and its time grows with the square of the number of entities in a set.
pub fn are_legal_sets(model: &EntityModel, entities: &[Seq<Entity>]) -> bool
    requires { IsSoundModel model.now }
    ensures { IsTrue result ↔ AreLegalSets model.now entities.now }
{
    have_legal_sets(model, model.sets.as_slice(), entities)
}

// S1 to S4, set by set.
fn have_legal_sets(model: &EntityModel, sets: &[EntitySet], entities: &[Seq<Entity>]) -> bool
    requires { IsSoundModel model.now }
    ensures { IsTrue result ↔ HaveLegalSets model.now sets.now entities.now }
{
    for (s, set) in sets.iter().enumerate() {
        if !is_legal_set(model, set, list_at(entities, s)) {
            return false;
        }
    }
    true
}

fn is_legal_set(model: &EntityModel, set: &EntitySet, entities: &[Entity]) -> bool
    requires { IsSoundModel model.now }
    ensures { IsTrue result ↔ IsLegalSet model.now set.now entities.now }
{
    keep_set_rules(model, set, entities)
}

fn keep_set_rules(model: &EntityModel, set: &EntitySet, entities: &[Entity]) -> bool
    requires { IsSoundModel model.now }
    ensures { IsTrue result ↔ (All (FitsSet model.now set.now) entities.now × KeysApart model.now entities.now) }
{
    fit_set(model, set, entities) && are_apart(model, entities)
}

// S1 to S3, entity by entity.
fn fit_set(model: &EntityModel, set: &EntitySet, entities: &[Entity]) -> bool
    requires { IsSoundModel model.now }
    ensures { IsTrue result ↔ All (FitsSet model.now set.now) entities.now }
{
    for entity in entities {
        if !fits_set(model, set, entity) {
            return false;
        }
    }
    true
}

fn fits_set(model: &EntityModel, set: &EntitySet, entity: &Entity) -> bool
    requires { IsSoundModel model.now }
    ensures { IsTrue result ↔ FitsSet model.now set.now entity.now }
{
    has_fitting_type(model, set, entity) && fits_props(model, entity)
}

// S1 of one entity.
fn has_fitting_type(model: &EntityModel, set: &EntitySet, entity: &Entity) -> bool
    requires { IsSoundModel model.now }
    ensures { IsTrue result ↔ HasFittingType model.now set.now entity.now }
{
    is_concrete(model, entity.ty) && is_of(model, entity.ty, set.element)
}

// S2 and S3 of one entity, property by property.
fn fits_props(model: &EntityModel, entity: &Entity) -> bool
    ensures { IsTrue result ↔ FitsProps model.now entity.now }
{
    let props = props_at(model, entity.ty);
    for (j, prop) in props.iter().enumerate() {
        if !fits_at(model, entity, j, *prop) {
            return false;
        }
    }
    true
}

// S2 and S3 of the value at one place.
fn fits_at(model: &EntityModel, entity: &Entity, j: usize, prop: PropId) -> bool
    ensures { IsTrue result ↔ FitsAt model.now entity.now j prop }
{
    match model.props.get(prop.index as usize) {
        Some(declared) => broken_rule(entity, j, declared).is_none(),
        None => true,
    }
}

// S4: no entity has the key of one before it.
fn are_apart(model: &EntityModel, entities: &[Entity]) -> bool
    ensures { IsTrue result ↔ KeysApart model.now entities.now }
{
    for i in 0..entities.len() {
        if repeats(model, entities, i) {
            return false;
        }
    }
    true
}

// Whether the entity has the key of one before it.
fn repeats(model: &EntityModel, entities: &[Entity], i: usize) -> bool
    requires { i < length entities.now }
    ensures { IsTrue result ↔ IsRepeat (λ one other. key_of model.now one ≡ key_of model.now other) entities.now i }
{
    for k in 0..i {
        if have_one_key(model, &entities[k], &entities[i]) {
            return true;
        }
    }
    false
}

fn have_one_key(model: &EntityModel, one: &Entity, other: &Entity) -> bool
    ensures { IsTrue result ↔ (key_of model.now one.now ≡ key_of model.now other.now) }
{
    have_same_values(
        model,
        one,
        key_at(model, one.ty),
        other,
        key_at(model, other.ty),
    )
}
