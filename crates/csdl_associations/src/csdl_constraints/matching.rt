ghost use Rattle.std.specs.Prelude.{◌≡◌, ◌↔◌, IfOk, IsTrue};
ghost use Rattle.csdl_names.specs.csdl_lists.References.{names_in};
ghost use Rattle.csdl_associations.specs.csdl_constraints.Constraints.{BreaksListsIn};
ghost use Rattle.csdl_associations.specs.csdl_constraints.Sides.{HaveSameTypes, type_in, types_in};

use crate::csdl_constraints::sides::Sides;
use csdl_names::{RawAssociation, RawConstraint};
use csdl_types::{PropType, Typing};
use emc_base::{Memory, Txt};
use groupings::{are_apart, holds_each_once};
use std::alloc::Global;

/// Whether the two lists of a constraint don't match, or else an association set has another element type at the principal's role, as is
/// known. What the Types of properties name is asked of `typing`. `Memory` comes where memory ran out.
pub fn breaks_lists<T: Typing>(
    alloc: Global,
    sides: &Sides<'_>,
    typing: &T,
    association: &RawAssociation,
    constraint: &RawConstraint,
    has_other: bool,
) -> Result<bool, Memory>
    ensures { IfOk result (λ is. IsTrue is ↔ BreaksListsIn sides.now.lookups.now.model.now (T.types typing.now) association.now constraint.now (IsTrue has_other)) }
{
    let principal = &constraint.principal;
    let dependent = &constraint.dependent;
    let roles = [&principal.role, &dependent.role];
    if !holds_each_once(alloc, association.ends.as_slice(), &roles)? {
        return Ok(true);
    }
    if !sides.is_whole_key(alloc, association, principal)? {
        return Ok(true);
    }
    if !are_apart(alloc, dependent.props.as_slice())? {
        return Ok(true);
    }
    if !have_same_types(sides, typing, association, constraint) {
        return Ok(true);
    }
    Ok(has_other)
}

// Whether the Types of the two lists name the same, one by one.
fn have_same_types<T: Typing>(
    sides: &Sides<'_>,
    typing: &T,
    association: &RawAssociation,
    constraint: &RawConstraint,
) -> bool
    ensures { IsTrue result ↔ HaveSameTypes sides.now.lookups.now.model.now (T.types typing.now) association.now constraint.now }
{
    let principal = &constraint.principal;
    let dependent = &constraint.dependent;
    let one = sides.lookups.type_of_role(association, &principal.role);
    let other = sides.lookups.type_of_role(association, &dependent.role);
    match_types(
        sides,
        typing,
        one,
        principal.props.as_slice(),
        other,
        dependent.props.as_slice(),
    )
}

// Whether the Types of the properties of one type name the same as those of the other, one by one.
fn match_types<T: Typing>(
    sides: &Sides<'_>,
    typing: &T,
    one: Option<usize>,
    ones: &[Txt],
    other: Option<usize>,
    others: &[Txt],
) -> bool
    ensures { let types = types_in sides.now.lookups.now.model.now (T.types typing.now) in IsTrue result ↔ (types one ones.now ≡ types other others.now) }
{
    if ones.len() != others.len() {
        return false;
    }
    for (place, name) in ones.iter().enumerate() {
        if !is_same(
            type_in(sides, typing, one, name),
            type_in(sides, typing, other, &others[place]),
        ) {
            return false;
        }
    }
    true
}

// Whether both name the same.
fn is_same(one: Option<PropType>, other: Option<PropType>) -> bool
    ensures { IsTrue result ↔ (one ≡ other) }
{
    one == other
}

// What the Type of the property of this name names, where the type is found and has one.
fn type_in<T: Typing>(
    sides: &Sides<'_>,
    typing: &T,
    ty: Option<usize>,
    name: &Txt,
) -> Option<PropType>
    ensures { result ≡ type_in (names_in sides.now.lookups.now.model.now) sides.now.lookups.now.model.now (T.types typing.now) ty name.now }
{
    sides.type_of_prop(typing, ty?, name)
}
