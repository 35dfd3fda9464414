ghost use Rattle.std.specs.Prelude.{◌≡◌, ◌++◌, [], IfOk};
ghost use Rattle.std.specs.List.{cons_option};
ghost use Rattle.std.specs.Option.{option_map_or};
ghost use Rattle.round_trip.specs.Words.{values_of};
ghost use Rattle.population.specs.Principals.{asked_by, is_asked, none_null, principal_by, principals};

use crate::declared::{dependent_end, derives, key_props, principal_end};
use crate::plain::values_beside;
use edm_types::{Assoc, Constraint, Entity, EntityModel};
use emc_base::{Memory, Seq, SetId, put_found};
use entity_state::{have_no_null, values_of};
use population::PlacedKey;
use std::alloc::Global;

/// The principals that an entity of a set asks for, in the order of associations. `Memory` comes where memory ran out.
pub fn principals(
    alloc: Global,
    model: &EntityModel,
    set: SetId,
    entity: &Entity,
) -> Result<Seq<PlacedKey>, Memory>
    ensures { IfOk result (λ keys. keys ≡ principals model.now set entity.now) }
{
    let mut keys = Seq::empty(alloc);
    add_principals(alloc, model, set, entity, &mut keys)?;
    Ok(keys)
}

/// Adds the principals that an entity of a set asks for. `Memory` comes where memory ran out.
pub(crate) fn add_principals(
    alloc: Global,
    model: &EntityModel,
    set: SetId,
    entity: &Entity,
    keys: &mut Seq<PlacedKey>,
) -> Result<(), Memory>
    ensures { IfOk result (λ _. keys.new ≡ keys.old ++ principals model.now set entity.now) }
{
    for assoc in model.assocs.as_slice() {
        put_found(keys, principal_of(alloc, model, set, entity, assoc)?)?;
    }
    Ok(())
}

// The principal that an association's constraint asks, if it has one that does.
fn principal_of(
    alloc: Global,
    model: &EntityModel,
    set: SetId,
    entity: &Entity,
    assoc: &Assoc,
) -> Result<Option<PlacedKey>, Memory>
    ensures { IfOk result (λ found. cons_option found [] ≡ option_map_or (asked_by model.now set entity.now assoc.now) assoc.now.constraint []) }
{
    let Some(constraint) = &assoc.constraint else {
        return Ok(None);
    };
    if !is_asked(model, set, entity, assoc, constraint) {
        return Ok(None);
    }
    Ok(Some(principal_by(alloc, model, assoc, constraint, entity)?))
}

// Whether a constraint asks a principal of an entity of the set.
fn is_asked(
    model: &EntityModel,
    set: SetId,
    entity: &Entity,
    assoc: &Assoc,
    constraint: &Constraint,
) -> bool
    ensures { result ≡ is_asked model.now set entity.now assoc.now constraint.now }
{
    let end = dependent_end(assoc, constraint);
    end.set.index == set.index
        && derives(model, entity.ty, end.ty)
        && none_null(model, entity, constraint)
}

// Whether none of an entity's dependent values is null.
fn none_null(model: &EntityModel, entity: &Entity, constraint: &Constraint) -> bool
    ensures { result ≡ none_null model.now (values_of model.now entity.now constraint.now.dependent) }
{
    have_no_null(model, entity, constraint.dependent.as_slice())
}

// The principal by one constraint.
fn principal_by(
    alloc: Global,
    model: &EntityModel,
    assoc: &Assoc,
    constraint: &Constraint,
    entity: &Entity,
) -> Result<PlacedKey, Memory>
    ensures { IfOk result (λ placed. placed ≡ principal_by model.now assoc.now constraint.now entity.now) }
{
    let end = principal_end(assoc, constraint);
    let values = values_of(alloc, model, entity, constraint.dependent.as_slice())?;
    let wanted = key_props(model, end.ty);
    let key = values_beside(
        alloc,
        wanted,
        constraint.principal.as_slice(),
        values.as_slice(),
    )?;
    Ok(PlacedKey { set: end.set, key })
}
