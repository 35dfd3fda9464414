ghost use Rattle.std.specs.Prelude.{◌≡◌, ◌≢◌, ◌↔◌, ◌<◌, List, All, AllPairs, Any, IsTrue, length};
ghost use Rattle.emc_base.specs.Lists.{AtMostOne};
ghost use Rattle.round_trip.specs.Words.{AreLegalLinks, HasCount, HavePrincipals, IsA, Link, Null, key_of, links_in, values_of};
ghost use Rattle.entity_state.specs.breach_order.Repeats.{IsRepeat};
ghost use Rattle.round_trip.specs.soundness.models.Models.{IsSoundModel};
ghost use Rattle.state_legality.specs.link_legality.Sides.{end_at, key_at};
ghost use Rattle.state_legality.specs.link_legality.Ends.{StandsAmong};
ghost use Rattle.state_legality.specs.link_legality.Counts.{IsNext, KeepsCount};
ghost use Rattle.state_legality.specs.link_legality.Principals.{FindsAmong, KeepsConstraint};
ghost use Rattle.state_legality.specs.link_legality.Tells.{KeepsAssoc, KeepsLinkRules, KeepsSide, KeepsSides, state_of};

use crate::link_legality::principals::{dependent_end, principal_end};
use crate::link_legality::side::Side;
use edm_types::{Assoc, Constraint, Entity, EntityModel, Link, Mult, is_of};
use emc_base::{AssocId, Key, Seq, TypeId};
use entity_state::{entities_at, has_values, have_no_null, have_same_values, links_at};

/// Whether the links and the principals of a state are legal, by the rules S5 to S8. It takes no memory, and its time grows with the
/// product of the numbers of links and entities, and with the square of the number of links.
pub fn are_legal_links(model: &EntityModel, entities: &[Seq<Entity>], links: &[Seq<Link>]) -> bool
    requires sound { IsSoundModel model.now }
    ensures { IsTrue result ↔ KeepsLinkRules model.now (state_of entities.now links.now) }
{
    let assocs = model.assocs.as_slice();
    for (i, assoc) in assocs.iter().enumerate() {
        let a = AssocId { index: i as u32 };
        if !keeps_rules(model, entities, links, a, assoc) {
            return false;
        }
    }
    true
}

// S5 to S8 at one association.
fn keeps_rules(
    model: &EntityModel,
    entities: &[Seq<Entity>],
    links: &[Seq<Link>],
    a: AssocId,
    assoc: &Assoc,
) -> bool
    requires sound { IsSoundModel model.now }
    ensures { IsTrue result ↔ KeepsAssoc model.now (state_of entities.now links.now) a assoc.now }
{
    match &assoc.constraint {
        Some(constraint) => have_principals(model, entities, assoc, constraint),
        None => are_legal_at(model, entities, links, a, assoc),
    }
}

// S5 to S7 at one association.
fn are_legal_at(
    model: &EntityModel,
    entities: &[Seq<Entity>],
    links: &[Seq<Link>],
    a: AssocId,
    assoc: &Assoc,
) -> bool
    requires sound { IsSoundModel model.now }
    ensures { IsTrue result ↔ AreLegalLinks model.now (state_of entities.now links.now) assoc.now (links_in (state_of entities.now links.now) a) }
{
    let first = entities_at(entities, assoc.first.set);
    let second = entities_at(entities, assoc.second.set);
    keep_both_sides(model, first, second, links_at(links, a), assoc)
}

fn keep_both_sides(
    model: &EntityModel,
    first: &[Entity],
    second: &[Entity],
    links: &[Link],
    assoc: &Assoc,
) -> bool
    requires sound { IsSoundModel model.now }
    ensures { IsTrue result ↔ (KeepsSides model.now first.now second.now links.now assoc.now × AllPairs (λ link other. link ≢ other) links.now) }
{
    keep_sides(model, first, second, links, assoc) && are_apart(links)
}

fn keep_sides(
    model: &EntityModel,
    first: &[Entity],
    second: &[Entity],
    links: &[Link],
    assoc: &Assoc,
) -> bool
    requires sound { IsSoundModel model.now }
    ensures { IsTrue result ↔ KeepsSides model.now first.now second.now links.now assoc.now }
{
    keeps_side(model, first, links, assoc, Side::First)
        && keeps_side(model, second, links, assoc, Side::Second)
}

// S5 and S7 at one side.
fn keeps_side(
    model: &EntityModel,
    entities: &[Entity],
    links: &[Link],
    assoc: &Assoc,
    side: Side,
) -> bool
    requires sound { IsSoundModel model.now }
    ensures { IsTrue result ↔ KeepsSide model.now entities.now links.now assoc.now side }
{
    all_stand(model, entities, links, assoc, side) && all_fit(model, entities, links, assoc, side)
}

// Whether a type is another or derived from it.
fn is_under(model: &EntityModel, t: TypeId, u: TypeId) -> bool
    requires sound { IsSoundModel model.now }
    ensures { IsTrue result ↔ IsA model.now t u }
{
    is_of(model, t, u)
}

// Whether an entity has this key.
fn has_key(model: &EntityModel, entity: &Entity, key: &Key) -> bool
    ensures { IsTrue result ↔ (key_of model.now entity.now ≡ key.now) }
{
    match model.types.get(entity.ty.index as usize) {
        Some(declared) => has_values(model, entity, declared.key.as_slice(), key.as_slice()),
        None => key.is_empty(),
    }
}

// S5, link by link.
fn all_stand(
    model: &EntityModel,
    entities: &[Entity],
    links: &[Link],
    assoc: &Assoc,
    side: Side,
) -> bool
    requires sound { IsSoundModel model.now }
    ensures { IsTrue result ↔ All (λ link. StandsAmong model.now (end_at assoc.now side).ty entities.now (key_at link side)) links.now }
{
    for link in links {
        if !stands_among(model, entities, side.end_of(assoc).ty, side.key_of(link)) {
            return false;
        }
    }
    true
}

// Whether an entity of this key stands among these, of the type or one under it.
fn stands_among(model: &EntityModel, entities: &[Entity], u: TypeId, key: &Key) -> bool
    requires sound { IsSoundModel model.now }
    ensures { IsTrue result ↔ StandsAmong model.now u entities.now key.now }
{
    for entity in entities {
        if is_it(model, entity, u, key) {
            return true;
        }
    }
    false
}

fn is_it(model: &EntityModel, entity: &Entity, u: TypeId, key: &Key) -> bool
    requires sound { IsSoundModel model.now }
    ensures { IsTrue result ↔ (IsA model.now entity.now.ty u × (key_of model.now entity.now ≡ key.now)) }
{
    is_under(model, entity.ty, u) && has_key(model, entity, key)
}

// S6: no link equals one before it.
fn are_apart(links: &[Link]) -> bool
    ensures { IsTrue result ↔ AllPairs (λ link other. link ≢ other) links.now }
{
    for i in 0..links.len() {
        if repeats(links, i) {
            return false;
        }
    }
    true
}

// Whether the link equals one before it.
fn repeats(links: &[Link], i: usize) -> bool
    requires { i < length links.now }
    ensures { IsTrue result ↔ IsRepeat (λ one other. one ≡ other) links.now i }
{
    for k in 0..i {
        if is_same_link(&links[k], &links[i]) {
            return true;
        }
    }
    false
}

fn is_same_link(one: &Link, other: &Link) -> bool
    ensures { IsTrue result ↔ (one.now ≡ other.now) }
{
    is_same_key(&one.first, &other.first) && is_same_key(&one.second, &other.second)
}

fn is_same_key(one: &Key, other: &Key) -> bool
    ensures { IsTrue result ↔ (one.now ≡ other.now) }
{
    one == other
}

// S7, entity by entity.
fn all_fit(
    model: &EntityModel,
    entities: &[Entity],
    links: &[Link],
    assoc: &Assoc,
    side: Side,
) -> bool
    requires sound { IsSoundModel model.now }
    ensures { IsTrue result ↔ All (KeepsCount model.now links.now assoc.now side) entities.now }
{
    for entity in entities {
        if !keeps_count(model, entity, links, assoc, side) {
            return false;
        }
    }
    true
}

fn keeps_count(
    model: &EntityModel,
    entity: &Entity,
    links: &[Link],
    assoc: &Assoc,
    side: Side,
) -> bool
    requires sound { IsSoundModel model.now }
    ensures { IsTrue result ↔ KeepsCount model.now links.now assoc.now side entity.now }
{
    !is_under(model, entity.ty, side.end_of(assoc).ty)
        || has_count(model, entity, links, side, side.partners_of(assoc))
}

// Whether an entity has as many partners as the multiplicity allows.
fn has_count(model: &EntityModel, entity: &Entity, links: &[Link], side: Side, mult: Mult) -> bool
    ensures { IsTrue result ↔ HasCount mult (λ link. key_at link side ≡ key_of model.now entity.now) links.now }
{
    match mult {
        Mult::One => {
            has_partner(model, entity, links, side) && has_one_at_most(model, entity, links, side)
        }
        Mult::ZeroOrOne => has_one_at_most(model, entity, links, side),
        Mult::Many => true,
    }
}

fn has_partner(model: &EntityModel, entity: &Entity, links: &[Link], side: Side) -> bool
    ensures { IsTrue result ↔ Any (λ link. key_at link side ≡ key_of model.now entity.now) links.now }
{
    links
        .iter()
        .any(|link| has_key(model, entity, side.key_of(link)))
}

fn has_one_at_most(model: &EntityModel, entity: &Entity, links: &[Link], side: Side) -> bool
    ensures { IsTrue result ↔ AtMostOne (λ link. key_at link side ≡ key_of model.now entity.now) links.now }
{
    match next_partner(model, entity, links, side, 0) {
        Some(i) => next_partner(model, entity, links, side, i + 1).is_none(),
        None => true,
    }
}

// The first link from this place on with the entity's key at the side.
fn next_partner(
    model: &EntityModel,
    entity: &Entity,
    links: &[Link],
    side: Side,
    from: usize,
) -> Option<usize>
    ensures { IsNext (λ link. key_at link side ≡ key_of model.now entity.now) links.now from result }
{
    for i in from..links.len() {
        if has_key(model, entity, side.key_of(&links[i])) {
            return Some(i);
        }
    }
    None
}

// S8, entity by entity.
fn have_principals(
    model: &EntityModel,
    entities: &[Seq<Entity>],
    assoc: &Assoc,
    constraint: &Constraint,
) -> bool
    requires sound { IsSoundModel model.now }
    ensures { (links : List (List Link)) → IsTrue result ↔ HavePrincipals model.now (state_of entities.now links) assoc.now constraint.now }
{
    let end = dependent_end(assoc, constraint);
    let dependents = entities_at(entities, end.set);
    let principals = entities_at(entities, principal_end(assoc, constraint).set);
    all_keep_constraint(model, dependents, principals, end.ty, constraint)
}

fn all_keep_constraint(
    model: &EntityModel,
    dependents: &[Entity],
    principals: &[Entity],
    u: TypeId,
    constraint: &Constraint,
) -> bool
    requires sound { IsSoundModel model.now }
    ensures { IsTrue result ↔ All (KeepsConstraint model.now principals.now u constraint.now) dependents.now }
{
    for entity in dependents {
        if !keeps_constraint(model, principals, u, constraint, entity) {
            return false;
        }
    }
    true
}

fn keeps_constraint(
    model: &EntityModel,
    principals: &[Entity],
    u: TypeId,
    constraint: &Constraint,
    entity: &Entity,
) -> bool
    requires sound { IsSoundModel model.now }
    ensures { IsTrue result ↔ KeepsConstraint model.now principals.now u constraint.now entity.now }
{
    !refers(model, u, constraint, entity) || has_principal(model, principals, constraint, entity)
}

fn refers(model: &EntityModel, u: TypeId, constraint: &Constraint, entity: &Entity) -> bool
    requires sound { IsSoundModel model.now }
    ensures { IsTrue result ↔ (IsA model.now entity.now.ty u × All (λ value. value ≢ Null) (values_of model.now entity.now constraint.now.dependent)) }
{
    is_under(model, entity.ty, u) && have_no_null(model, entity, constraint.dependent.as_slice())
}

fn has_principal(
    model: &EntityModel,
    principals: &[Entity],
    constraint: &Constraint,
    entity: &Entity,
) -> bool
    ensures { IsTrue result ↔ FindsAmong model.now principals.now constraint.now entity.now }
{
    let wanted = constraint.principal.as_slice();
    let held = constraint.dependent.as_slice();
    principals.iter().any(|principal| have_same_values(model, principal, wanted, entity, held))
}
