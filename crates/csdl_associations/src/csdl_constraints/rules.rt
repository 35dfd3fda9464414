ghost use Rattle.std.specs.Prelude.{◌≡◌, ◌↔◌, IfOk, IsTrue, MatchOption};
ghost use Rattle.layouts.specs.Faults.{fault_cmp};
ghost use Rattle.groupings.specs.least_fault.Least.{IsLeast};
ghost use Rattle.csdl_names.specs.csdl_lists.References.{names_in};
ghost use Rattle.csdl_associations.specs.csdl_constraints.Answered.{AreNamed, AreOfOther, IsFaultBy, IsUnlike};
ghost use Rattle.csdl_associations.specs.csdl_constraints.Constraints.{BreaksConstraintRules, IsOfOther, MarksOther};

use crate::csdl_constraints::marks::{Marking, is_marked, marks_of};
use crate::csdl_constraints::matching::breaks_lists;
use crate::csdl_constraints::mults::breaks_mults;
use crate::csdl_constraints::named::named_associations;
use crate::csdl_constraints::sides::Sides;
use csdl_names::{Lookups, RawAssociation, RawAssociationSet};
use emc_base::Memory;
use groupings::{Finder, earlier_of};
use layouts::{Fault, Rule, fault_if, first_at};
use std::alloc::Global;

/// A set marks its association where it has another element type at the principal's role.
#[derive(Drop)]
struct OfOther<'a> {
    lookups: &'a Lookups<'a>,
}

impl<'a> Marking for OfOther<'a> {
    ghost marks = { λ s. MarksOther (names_in s.lookups.now.model.now) s.lookups.now.model.now };

    fn place(&self, set: &RawAssociationSet) -> Option<usize> {
        let place = self.lookups.association_named(&set.association)?;
        let association = self.lookups.model.associations.get(place)?;
        if !is_of_other(self.lookups, association, set) {
            return None;
        }
        Some(place)
    }
}

// Whether the set has another element type at the role of the principal, where the association has a constraint.
fn is_of_other(lookups: &Lookups<'_>, association: &RawAssociation, set: &RawAssociationSet) -> bool
    ensures { IsTrue result ↔ MatchOption association.now.constraint ⊥ (λ its. IsOfOther (names_in lookups.now.model.now) lookups.now.model.now association.now its set.now) }
{
    let Some(constraint) = &association.constraint else {
        return false;
    };
    let role = &constraint.principal.role;
    !is_same(
        lookups.element_of_role(set, role),
        lookups.type_of_role(association, role),
    )
}

// Whether both are one type, or none.
fn is_same(one: Option<usize>, other: Option<usize>) -> bool
    ensures { IsTrue result ↔ (one ≡ other) }
{
    one == other
}

// Of each association whether some set has another element type at the principal's role.
fn other_associations(alloc: Global, lookups: &Lookups<'_>) -> Result<Vec<bool>, Memory>
    ensures { IfOk result (λ others. AreOfOther lookups.now.model.now others.items) }
{
    let others = marks_of(
        alloc,
        lookups.model.associations.len(),
        &OfOther { lookups: &*lookups },
        lookups.model.container.association_sets.as_slice(),
    )?;
    Ok(others)
}

/// The associations, with marks for those that a set names, and for those of which a set has another element type at the principal's role.
#[derive(Drop)]
struct Rules<'a> {
    sides: &'a Sides<'a>,
    named: &'a [bool],
    others: &'a [bool],
}

impl<'a> Finder<RawAssociation, Fault> for Rules<'a> {
    ghost use Rattle.csdl_associations.specs.csdl_constraints.Answered.{IsMarkedFault};

    ghost wrong = { λ s i _. IsMarkedFault s.sides.now.lookups.now.model.now s.named.now s.others.now i };

    fn find(
        &self,
        alloc: Global,
        place: usize,
        _item: &RawAssociation,
    ) -> Result<Option<Fault>, Memory> {
        if !is_marked(self.named, place) {
            return Ok(None);
        }
        let Some(association) = self.sides.lookups.model.associations.get(place) else {
            return Ok(None);
        };
        let has_other = is_marked(self.others, place);
        let found = first_in(alloc, self.sides, association, has_other)?;
        Ok(found)
    }
}

// The least fault of an association that some set names.
fn first_in(
    alloc: Global,
    sides: &Sides<'_>,
    association: &RawAssociation,
    has_other: bool,
) -> Result<Option<Fault>, Memory>
    ensures { IfOk result (λ found. IsLeast fault_cmp (IsFaultBy sides.now.lookups.now.model.now association.now (IsTrue has_other)) found) }
{
    let is_broken = breaks_mults(alloc, sides, association)?;
    let is_unlike = breaks_constraint(alloc, sides, association, has_other)?;
    let mults = fault_if(alloc, is_broken, Rule::Multiplicities, "End");
    let lists = fault_if(alloc, is_unlike, Rule::Constraint, "ReferentialConstraint");
    earlier_of(mults, lists)
}

// Whether the association has a constraint, and its lists don't match.
fn breaks_constraint(
    alloc: Global,
    sides: &Sides<'_>,
    association: &RawAssociation,
    has_other: bool,
) -> Result<bool, Memory>
    ensures { IfOk result (λ answer. IsTrue answer ↔ IsUnlike sides.now.lookups.now.model.now association.now (IsTrue has_other)) }
{
    let Some(constraint) = &association.constraint else {
        return Ok(false);
    };
    let typing = sides.lookups.scope;
    let answer = breaks_lists(alloc, sides, typing, association, constraint, has_other)?;
    Ok(answer)
}

/// The least fault of associations by their multiplicities and constraints. `Memory` comes where memory ran out.
pub fn first_constraint_fault(alloc: Global, sides: &Sides<'_>) -> Result<Option<Fault>, Memory>
    ensures { IfOk result (λ found. IsLeast fault_cmp (BreaksConstraintRules sides.now.lookups.now.model.now) found) }
{
    let named = named_associations(alloc, sides.lookups)?;
    let others = other_associations(alloc, sides.lookups)?;
    let found = first_by_marks(alloc, sides, &named, &others)?;
    Ok(found)
}

// The same, where the marks are known.
fn first_by_marks(
    alloc: Global,
    sides: &Sides<'_>,
    named: &[bool],
    others: &[bool],
) -> Result<Option<Fault>, Memory>
    requires named { AreNamed sides.now.lookups.now.model.now named.now }
    requires others { AreOfOther sides.now.lookups.now.model.now others.now }
    ensures { IfOk result (λ found. IsLeast fault_cmp (BreaksConstraintRules sides.now.lookups.now.model.now) found) }
{
    let search = Rules {
        sides,
        named,
        others,
    };
    let found = first_at(
        alloc,
        "Association",
        &search,
        &sides.lookups.model.associations,
    )?;
    Ok(found)
}
