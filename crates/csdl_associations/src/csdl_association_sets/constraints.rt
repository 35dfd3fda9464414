ghost use Rattle.std.specs.Prelude.{◌≡◌, ◌↔◌, IfOk, IsTrue, Option};
ghost use Rattle.emc_base.specs.Lists.{At};
ghost use Rattle.csdl_associations.specs.csdl_association_sets.Told.{BreaksDependent, HasOtherElement, IsArrowIn, KnowsConstraint};

use crate::csdl_constraints::{Dependent, Sides, dependents};
use csdl_names::{Lookups, RawAssociation, RawAssociationSet, RawConstraint};
use emc_base::{Memory, Txt};
use graphs::Arrow;
use std::alloc::Global;
use std::marker::Model;

/// The associations of a model, and what is known of the Dependent of each that has a constraint. Contracts see the model.
#[derive(Drop)]
pub struct Constraints<'a> {
    lookups: &'a Lookups<'a>,
    told: Vec<Option<Dependent>>,
}

impl<'a> Model for Constraints<'a> {
    ghost use Rattle.csdl_names.specs.declared.csdl_lists.raw.RawModel.{RawModel};
    ghost use Rattle.csdl_names.specs.csdl_lists.References.{names_in};
    ghost use Rattle.csdl_associations.specs.csdl_constraints.Told.{AreToldOf};

    ghost Value = { RawModel };

    ghost view = { λ s. s.lookups.now.model.now };

    ghost invariant = { λ s. AreToldOf (names_in s.lookups.now.model.now) s.lookups.now.model.now s.lookups.now.model.now.associations s.told.items };
}

/// The association that an association set names, its constraint, and what is known of the Dependent.
#[derive(Clone, Copy)]
pub struct SetConstraint<'a> {
    pub association: &'a RawAssociation,
    pub constraint: &'a RawConstraint,
    pub dependent: Dependent,
}

impl<'a> Constraints<'a> {
    /// The associations of the model in which the sides are looked up.
    pub fn of(alloc: Global, sides: &'a Sides<'a>) -> Result<Constraints<'a>, Memory>
        ensures { IfOk result (λ constraints. constraints ≡ sides.now.lookups.now.model.now) }
    {
        let told = dependents(alloc, sides)?;
        Ok(Constraints {
            lookups: sides.lookups,
            told,
        })
    }

    /// What is known of the constraint of an association set, where it has one.
    pub fn of_set(&self, set: &RawAssociationSet) -> Option<SetConstraint<'a>>
        ensures { KnowsConstraint self.now set.now result }
    {
        let place = self.lookups.association_named(&set.association)?;
        let association = self.lookups.model.associations.get(place)?;
        let constraint = association.constraint.as_ref()?;
        let dependent = told_at(self.told.as_slice(), place)?;
        Some(SetConstraint {
            association,
            constraint,
            dependent,
        })
    }

    /// V18: whether a key property is among the dependent ones, and the dependent type isn't the element type of its set.
    pub fn has_other_dependent(&self, set: &RawAssociationSet) -> bool
        ensures { IsTrue result ↔ BreaksDependent self.now set.now }
    {
        let Some(known) = self.of_set(set) else {
            return false;
        };
        let role = &known.constraint.dependent.role;
        known.dependent.has_key_prop && self.has_other_element(set, known.association, role)
    }

    // Whether the element type of the set at a role isn't the type of the association's end.
    fn has_other_element(
        &self,
        set: &RawAssociationSet,
        association: &RawAssociation,
        role: &Txt,
    ) -> bool
        ensures { IsTrue result ↔ HasOtherElement self.now set.now association.now role.now }
    {
        let element = self.lookups.element_of_role(set, role);
        let ty = self.lookups.type_of_role(association, role);
        !is_same(element, ty)
    }

    /// The arrow of an association set from its dependent set to its principal set, where its constraint decides a part of
    /// a key.
    pub fn arrow_of(&self, set: &RawAssociationSet) -> Option<Arrow>
        ensures { IsArrowIn self.now set.now result }
    {
        let known = self.of_set(set)?;
        if !decides_key(known.dependent) {
            return None;
        }
        let from = self
            .lookups
            .set_of_role(set, &known.constraint.dependent.role)?;
        let to = self
            .lookups
            .set_of_role(set, &known.constraint.principal.role)?;
        Some(Arrow { from, to })
    }
}

// What is told at a place.
fn told_at(told: &[Option<Dependent>], place: usize) -> Option<Dependent>
    ensures { (known : Option Dependent) → At told.now place known → result ≡ known }
{
    match told.get(place) {
        Some(known) => *known,
        None => None,
    }
}

// Whether a property of the key is a dependent one, and none of these may be null.
fn decides_key(dependent: Dependent) -> bool
    ensures { IsTrue result ↔ (IsTrue dependent.has_key_prop × (¬ IsTrue dependent.has_nullable)) }
{
    dependent.has_key_prop && !dependent.has_nullable
}

// Whether two places are the same, or there are none.
fn is_same(one: Option<usize>, other: Option<usize>) -> bool
    ensures { IsTrue result ↔ (one ≡ other) }
{
    match (one, other) {
        (Some(one), Some(other)) => one == other,
        (None, None) => true,
        _ => false,
    }
}
