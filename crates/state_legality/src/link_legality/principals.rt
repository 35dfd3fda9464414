ghost use Rattle.std.specs.Prelude.{◌≡◌, IfOk, List};
ghost use Rattle.groupings.specs.least_fault.Least.{IsLeast};
ghost use Rattle.entity_state.specs.breach_order.Founds.{found_cmp};
ghost use Rattle.round_trip.specs.Words.{Link, dependent_end, principal_end, values_of};
ghost use Rattle.round_trip.specs.soundness.models.ModelIds.{IsTypeId};
ghost use Rattle.round_trip.specs.soundness.models.Models.{IsSoundModel};
ghost use Rattle.state_legality.specs.link_legality.Ends.{HoldsJust};
ghost use Rattle.state_legality.specs.link_legality.Principals.{IsLostAt};
ghost use Rattle.state_legality.specs.link_legality.Tells.{state_of};

use crate::link_legality::under::{is_marked, marks_under};
use edm_types::{Assoc, Constraint, End, Entity, EntityModel, EntitySet};
use emc_base::{AssocId, Key, Memory, PropId, Seq};
use entity_state::{Found, StateRule, entities_at, have_no_null, place_of, values_of};
use groupings::{Finder, first_among};
use std::alloc::Global;
use std::collections::BTreeSet;

/// The end at which the dependent entities stand.
pub fn dependent_end<'a>(assoc: &'a Assoc, constraint: &Constraint) -> &'a End
    ensures { result.now ≡ dependent_end assoc.now constraint.now }
{
    if constraint.dependent_first {
        &assoc.first
    } else {
        &assoc.second
    }
}

/// The end at which the principal entities stand.
pub fn principal_end<'a>(assoc: &'a Assoc, constraint: &Constraint) -> &'a End
    ensures { result.now ≡ principal_end assoc.now constraint.now }
{
    if constraint.dependent_first {
        &assoc.second
    } else {
        &assoc.first
    }
}

// What entities have in several properties.
fn held_values(
    alloc: Global,
    model: &EntityModel,
    entities: &[Entity],
    props: &[PropId],
) -> Result<BTreeSet<Key>, Memory>
    ensures { IfOk result (HoldsJust (λ entity values. values_of model.now entity props.now ≡ values) entities.now) }
{
    let mut held = BTreeSet::new(alloc);
    for entity in entities {
        let values = values_of(alloc, model, entity, props)?;
        held.insert(values)?;
    }
    Ok(held)
}

/// Looks at the entities of a dependent end's set, where it is known which principals there are.
#[derive(Clone, Copy)]
struct Dependents<'a> {
    model: &'a EntityModel,
    a: AssocId,
    assoc: &'a Assoc,
    constraint: &'a Constraint,
    set: &'a EntitySet,
    under: &'a [bool],
    held: &'a BTreeSet<Key>,
}

impl<'a> Finder<Entity, Found> for Dependents<'a> {
    ghost use Rattle.state_legality.specs.link_legality.Principals.{IsUnheld};

    ghost wrong = { λ s i entity. IsUnheld s.model.now s.under.now s.held.now s.a s.assoc.now s.constraint.now s.set.now i entity };

    fn find(&self, alloc: Global, i: usize, entity: &Entity) -> Result<Option<Found>, Memory> {
        let dependent = self.constraint.dependent.as_slice();
        if !is_marked(self.under, entity.ty) {
            return Ok(None);
        }
        if !have_no_null(self.model, entity, dependent) {
            return Ok(None);
        }
        let values = values_of(alloc, self.model, entity, dependent)?;
        if self.held.contains(&values) {
            return Ok(None);
        }
        let part = &self.assoc.set_name;
        let place = place_of(alloc, self.model, &self.set.name, entity, part)?;
        let spot = [self.a.index as usize, i];
        let found = Found::at(alloc, StateRule::Principal.number(), &spot, place)?;
        Ok(Some(found))
    }
}

/// The first entity at the dependent end of an association that has no principal: S8.
pub fn first_lost(
    alloc: Global,
    model: &EntityModel,
    entities: &[Seq<Entity>],
    a: AssocId,
    assoc: &Assoc,
    constraint: &Constraint,
) -> Result<Option<Found>, Memory>
    requires sound { IsSoundModel model.now }
    requires known { IsTypeId model.now (dependent_end assoc.now constraint.now).ty }
    ensures { (links : List (List Link)) → IfOk result (IsLeast found_cmp (IsLostAt model.now (state_of entities.now links) a assoc.now constraint.now)) }
{
    let end = dependent_end(assoc, constraint);
    let Some(set) = model.sets.get(end.set.index as usize) else {
        return Ok(None);
    };
    let under = marks_under(alloc, model, end.ty)?;
    let principals = entities_at(entities, principal_end(assoc, constraint).set);
    let held = held_values(alloc, model, principals, constraint.principal.as_slice())?;
    let search = Dependents {
        model,
        a,
        assoc,
        constraint,
        set,
        under: &under,
        held: &held,
    };
    let found = first_among(alloc, &search, entities_at(entities, end.set))?;
    Ok(found)
}
