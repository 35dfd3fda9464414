ghost use Rattle.std.specs.Prelude.{◌≡◌, ◌↔◌, IfOk, IsTrue, codes};
ghost use Rattle.csdl_names.specs.csdl_lists.References.{names_in};
ghost use Rattle.csdl_associations.specs.csdl_constraints.Answered.{BreaksConstraintMultsIn, IsLooseDependentIn};
ghost use Rattle.csdl_associations.specs.csdl_constraints.Multiplicities.{BreaksFreeMults, BreaksMults, HasMult, IsNoPrincipal, IsOneWithoutMany, IsPrincipalOfNull};

use crate::csdl_constraints::sides::Sides;
use csdl_names::{RawAssociation, RawConstraint, RawEnd, end_of_role};
use emc_base::{Memory, Txt};
use std::alloc::Global;

/// Whether an association has multiplicities that aren't allowed. `Memory` comes where memory ran out.
pub(super) fn breaks_mults(
    alloc: Global,
    sides: &Sides<'_>,
    association: &RawAssociation,
) -> Result<bool, Memory>
    ensures { IfOk result (λ answer. IsTrue answer ↔ BreaksMults (names_in sides.now.lookups.now.model.now) sides.now.lookups.now.model.now association.now) }
{
    let Some(constraint) = &association.constraint else {
        return Ok(breaks_free_mults(association.ends.as_slice()));
    };
    let answer = breaks_constraint_mults(alloc, sides, association, constraint)?;
    Ok(answer)
}

// Whether two ends have multiplicities that aren't allowed without a constraint.
fn breaks_free_mults(ends: &[RawEnd]) -> bool
    ensures { IsTrue result ↔ BreaksFreeMults ends.now }
{
    match ends {
        [first, second] => is_one_without_many(first, second) || is_one_without_many(second, first),
        _ => false,
    }
}

// Whether one end is exactly one, and the other isn't any number.
fn is_one_without_many(end: &RawEnd, other: &RawEnd) -> bool
    ensures { IsTrue result ↔ IsOneWithoutMany end.now other.now }
{
    end.multiplicity.as_str() == "1" && other.multiplicity.as_str() != "*"
}

// Whether the multiplicities aren't allowed with the constraint.
fn breaks_constraint_mults(
    alloc: Global,
    sides: &Sides<'_>,
    association: &RawAssociation,
    constraint: &RawConstraint,
) -> Result<bool, Memory>
    ensures { IfOk result (λ answer. IsTrue answer ↔ BreaksConstraintMultsIn sides.now.lookups.now.model.now association.now constraint.now) }
{
    if is_no_principal(association, &constraint.principal.role) {
        return Ok(true);
    }
    if is_principal_of_null(sides, association, constraint) {
        return Ok(true);
    }
    if has_mult(association, &constraint.dependent.role, "1") {
        return Ok(true);
    }
    let answer = is_loose_dependent(alloc, sides, association, constraint)?;
    Ok(answer)
}

// Whether the end of the role is neither exactly one nor at most one.
fn is_no_principal(association: &RawAssociation, role: &Txt) -> bool
    ensures { IsTrue result ↔ IsNoPrincipal association.now role.now }
{
    !has_mult(association, role, "1") && !has_mult(association, role, "0..1")
}

// Whether the principal is exactly one, and a dependent property may be null.
fn is_principal_of_null(
    sides: &Sides<'_>,
    association: &RawAssociation,
    constraint: &RawConstraint,
) -> bool
    ensures { IsTrue result ↔ IsPrincipalOfNull (names_in sides.now.lookups.now.model.now) sides.now.lookups.now.model.now association.now constraint.now }
{
    has_mult(association, &constraint.principal.role, "1")
        && sides.has_nullable(association, &constraint.dependent)
}

// Whether there is at most one dependent, and the dependent properties aren't the whole key of their type.
fn is_loose_dependent(
    alloc: Global,
    sides: &Sides<'_>,
    association: &RawAssociation,
    constraint: &RawConstraint,
) -> Result<bool, Memory>
    ensures { IfOk result (λ answer. IsTrue answer ↔ IsLooseDependentIn sides.now.lookups.now.model.now association.now constraint.now) }
{
    if !has_mult(association, &constraint.dependent.role, "0..1") {
        return Ok(false);
    }
    let is_whole = sides.is_whole_key(alloc, association, &constraint.dependent)?;
    Ok(!is_whole)
}

// Whether the end of the role has the multiplicity.
fn has_mult(association: &RawAssociation, role: &Txt, multiplicity: &str) -> bool
    ensures { IsTrue result ↔ HasMult association.now role.now multiplicity.now }
{
    match end_of_role(association, role) {
        Some(end) => end.multiplicity.as_str() == multiplicity,
        None => false,
    }
}
