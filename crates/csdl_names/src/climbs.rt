ghost use Rattle.std.specs.Prelude.{◌≡◌, ◌↔◌, IsOk, length};
ghost use Rattle.csdl_names.specs.csdl_lists.References.{names_in};
ghost use Rattle.csdl_names.specs.Climbs.{AllowsClimbs, Leaves, steps_of_constraint, steps_of_constraints, steps_of_key, steps_of_keys, steps_of_names, steps_of_role, steps_upto};

use crate::csdl_lists::{RawAssociation, RawRole, RawType};
use crate::lookups::Lookups;
use emc_base::{Memory, Seq, Txt};

/// The most types that the look-ups of properties may look at, as many as the largest document has bytes. More counts as want of memory:
/// a document of some MiB can ask for billions, by a long list of names in the last type of a long chain.
const MOST_STEPS: u64 = 16_777_216;

/// Refuses a model in which the look-ups of properties look at more than so many types.
pub fn allow_climbs(lookups: &Lookups<'_>) -> Result<(), Memory>
    ensures { IsOk result ↔ AllowsClimbs lookups.now.model.now }
{
    let left = left_by_keys(lookups, MOST_STEPS)?;
    let _left = left_by_constraints(lookups, left)?;
    Ok(())
}

// What is left of so many steps when the names of all keys are looked up.
fn left_by_keys(lookups: &Lookups<'_>, most: u64) -> Result<u64, Memory>
    ensures { Leaves most (steps_of_keys (names_in lookups.now.model.now) lookups.now.model.now) result }
{
    let mut left = most;
    for (place, ty) in lookups.model.types.as_slice().iter().enumerate() {
        left = left_by_key(lookups, place, ty, left)?;
    }
    Ok(left)
}

// What is left when the names of the type's key, if there is one, are looked up.
fn left_by_key(lookups: &Lookups<'_>, place: usize, ty: &RawType, most: u64) -> Result<u64, Memory>
    ensures { Leaves most (steps_of_key (names_in lookups.now.model.now) lookups.now.model.now place ty.now) result }
{
    let Some(key) = &ty.key else {
        return Ok(most);
    };
    let left = left_by_names(lookups, place, key, most)?;
    Ok(left)
}

// What is left when the names of all constraints are looked up.
fn left_by_constraints(lookups: &Lookups<'_>, most: u64) -> Result<u64, Memory>
    ensures { Leaves most (steps_of_constraints (names_in lookups.now.model.now) lookups.now.model.now) result }
{
    let mut left = most;
    for association in lookups.model.associations.as_slice() {
        left = left_by_constraint(lookups, association, left)?;
    }
    Ok(left)
}

// What is left when the names of a constraint, if there is one, are looked up.
fn left_by_constraint(
    lookups: &Lookups<'_>,
    association: &RawAssociation,
    most: u64,
) -> Result<u64, Memory>
    ensures { Leaves most (steps_of_constraint (names_in lookups.now.model.now) lookups.now.model.now association.now) result }
{
    let Some(constraint) = &association.constraint else {
        return Ok(most);
    };
    let left = left_by_role(lookups, association, &constraint.principal, most)?;
    let last = left_by_role(lookups, association, &constraint.dependent, left)?;
    Ok(last)
}

// What is left when the names at a role are looked up, where its type is found.
fn left_by_role(
    lookups: &Lookups<'_>,
    association: &RawAssociation,
    role: &RawRole,
    most: u64,
) -> Result<u64, Memory>
    ensures { Leaves most (steps_of_role (names_in lookups.now.model.now) lookups.now.model.now association.now role.now) result }
{
    let Some(ty) = lookups.type_of_role(association, &role.role) else {
        return Ok(most);
    };
    let left = left_by_names(lookups, ty, &role.props, most)?;
    Ok(left)
}

// What is left when these names are looked up in a type.
fn left_by_names(
    lookups: &Lookups<'_>,
    ty: usize,
    names: &Seq<Txt>,
    most: u64,
) -> Result<u64, Memory>
    ensures { Leaves most (steps_of_names (names_in lookups.now.model.now) lookups.now.model.now ty names.now) result }
{
    let mut left = most;
    for name in names.as_slice() {
        left = left.checked_sub(steps_to(lookups, ty, name)).ok_or(Memory)?;
    }
    Ok(left)
}

// How many types are looked at, from this one up, until one declares the property or none stands above; as many as there are types where
// they come round in a circle.
fn steps_to(lookups: &Lookups<'_>, ty: usize, name: &Txt) -> u64
    ensures { result ≡ steps_upto (names_in lookups.now.model.now) lookups.now.model.now (length lookups.now.model.now.types) ty name.now }
{
    let count = lookups.model.types.len() as u64;
    let mut place = ty;
    for steps in 0..count {
        if lookups.own_prop(place, name).is_some() {
            return steps + 1;
        }
        let Some(base) = lookups.base(place) else {
            return steps + 1;
        };
        place = base;
    }
    count
}
