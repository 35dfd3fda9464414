ghost use Rattle.std.specs.Prelude.{◌≡◌, ◌↔◌, ℕ, List, IfOk, IsTrue, MatchOption};
ghost use Rattle.csdl_names.specs.csdl_lists.References.{names_in};
ghost use Rattle.ssdl_model.specs.ssdl_rules.ForeignKeys.{IsUnlike, PointsToItself};

use crate::ssdl_lists::ColumnTypes;
use csdl_associations::{Sides, breaks_lists};
use csdl_names::{Lookups, RawAssociation, RawConstraint};
use emc_base::{Memory, Txt};
use groupings::{Finder, earlier};
use layouts::{Fault, Rule, fault_if};
use std::alloc::Global;

/// V24 and V25 of foreign keys.
#[derive(Drop)]
pub(super) struct ForeignKeys<'a> {
    pub(super) sides: &'a Sides<'a>,
}

impl<'a> Finder<RawAssociation, Fault> for ForeignKeys<'a> {
    ghost use Rattle.ssdl_model.specs.ssdl_rules.ForeignKeys.{IsForeignKeyFault};

    ghost wrong = { λ s. IsForeignKeyFault (names_in s.sides.now.lookups.now.model.now) s.sides.now.lookups.now.model.now };

    fn find(
        &self,
        alloc: Global,
        _place: usize,
        item: &RawAssociation,
    ) -> Result<Option<Fault>, Memory> {
        let is_unlike = is_unlike(alloc, self.sides, item)?;
        let is_itself = is_itself(self.sides.lookups, item);
        let unlike = fault_if(alloc, is_unlike, Rule::ForeignKey, "ReferentialConstraint")?;
        let itself = fault_if(
            alloc,
            is_itself,
            Rule::PointsElsewhere,
            "ReferentialConstraint",
        )?;
        Ok(earlier(unlike, itself))
    }
}

// Whether the lists of a foreign key don't match.
fn is_unlike(alloc: Global, sides: &Sides<'_>, association: &RawAssociation) -> Result<bool, Memory>
    ensures { IfOk result (λ answer. IsTrue answer ↔ IsUnlike (names_in sides.now.lookups.now.model.now) sides.now.lookups.now.model.now association.now) }
{
    let Some(constraint) = &association.constraint else {
        return Ok(false);
    };
    let answer = breaks_lists(
        alloc,
        sides,
        &ColumnTypes {},
        association,
        constraint,
        false,
    )?;
    Ok(answer)
}

// Whether a foreign key matches each column with itself.
fn is_itself(lookups: &Lookups<'_>, association: &RawAssociation) -> bool
    ensures { IsTrue result ↔ MatchOption association.now.constraint ⊥ (PointsToItself (names_in lookups.now.model.now) lookups.now.model.now association.now) }
{
    let Some(constraint) = &association.constraint else {
        return false;
    };
    points_to_itself(lookups, association, constraint)
}

// Whether the constraint matches each column of a type with itself.
fn points_to_itself(
    lookups: &Lookups<'_>,
    association: &RawAssociation,
    constraint: &RawConstraint,
) -> bool
    ensures { IsTrue result ↔ PointsToItself (names_in lookups.now.model.now) lookups.now.model.now association.now constraint.now }
{
    let principal = lookups.type_of_role(association, &constraint.principal.role);
    let dependent = lookups.type_of_role(association, &constraint.dependent.role);
    principal == dependent
        && are_same(
            constraint.principal.props.as_slice(),
            constraint.dependent.props.as_slice(),
        )
}

// Whether two lists hold the same names, one by one.
fn are_same(ones: &[Txt], others: &[Txt]) -> bool
    ensures { IsTrue result ↔ (ones.now ≡ others.now) }
{
    if ones.len() != others.len() {
        return false;
    }
    for (place, name) in ones.iter().enumerate() {
        if name.as_str() != others[place].as_str() {
            return false;
        }
    }
    true
}
