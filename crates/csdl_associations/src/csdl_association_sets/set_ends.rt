ghost use Rattle.std.specs.Prelude.{◌≡◌, ◌↔◌, length, Any, IfOk, IsTrue};
ghost use Rattle.graphs.specs.base_chains.Chains.{base_at};
ghost use Rattle.graphs.specs.base_chains.Walks.{IsBasesFirst};
ghost use Rattle.csdl_names.specs.csdl_lists.References.{names_in};
ghost use Rattle.csdl_associations.specs.csdl_association_sets.SetEnds.{HasOtherRoles, HasOtherType};
ghost use Rattle.csdl_associations.specs.csdl_association_sets.Told.{element_at, BreaksTypes, IsEndFault};

use crate::csdl_association_sets::constraints::Constraints;
use csdl_names::{Lookups, RawAssociation, RawAssociationSet, RawSetEnd};
use emc_base::Memory;
use graphs::Ancestry;
use groupings::{Finder, earlier_of, holds_each_once};
use layouts::{Fault, Rule, fault_here_if, fault_if};
use std::alloc::Global;
use std::marker::Model;

/// What the ends of association sets are held against: associations, their constraints, and what stands above each type.
/// Contracts see the model.
#[derive(Drop)]
pub struct SetEnds<'a> {
    lookups: &'a Lookups<'a>,
    constraints: &'a Constraints<'a>,
    ancestry: Ancestry<'a>,
}

impl<'a> Model for SetEnds<'a> {
    ghost use Rattle.csdl_names.specs.declared.csdl_lists.raw.RawModel.{RawModel};
    ghost use Rattle.csdl_associations.specs.csdl_association_sets.Told.{KnowsEnds};

    ghost Value = { RawModel };

    ghost view = { λ s. s.lookups.now.model.now };

    ghost invariant = { λ s. KnowsEnds s.lookups.now.model.now s.constraints.now s.ancestry };
}

/// V15, V18 and V20 of an association set.
impl<'a> Finder<RawAssociationSet, Fault> for SetEnds<'a> {
    ghost wrong = { λ model. IsEndFault model };

    fn find(
        &self,
        alloc: Global,
        _: usize,
        item: &RawAssociationSet,
    ) -> Result<Option<Fault>, Memory> {
        let has_other_roles = has_other_roles(alloc, self.lookups, item)?;
        let roles = fault_if(alloc, has_other_roles, Rule::EndRoles, "End");
        let has_other_dependent = self.constraints.has_other_dependent(item);
        let dependent = fault_here_if(alloc, has_other_dependent, Rule::DependentKey);
        let types = fault_if(alloc, self.has_other_type(item), Rule::EndType, "End");
        earlier_of(roles, earlier_of(dependent, types))
    }
}

impl<'a> SetEnds<'a> {
    /// What is known of a model, by an order in which each type follows its base.
    pub fn of(
        alloc: Global,
        lookups: &'a Lookups<'a>,
        constraints: &'a Constraints<'a>,
        order: &[usize],
    ) -> Result<SetEnds<'a>, Memory>
        requires same { constraints.now ≡ lookups.now.model.now }
        requires order { IsBasesFirst (base_at lookups.now.bases.now) (length lookups.now.bases.now) order.now }
        ensures { IfOk result (λ ends. ends ≡ lookups.now.model.now) }
    {
        let ancestry = Ancestry::of(alloc, lookups.bases.as_slice(), order)?;
        Ok(SetEnds {
            lookups,
            constraints,
            ancestry,
        })
    }

    // V20: whether an end of the association is of another type than stands in its set.
    fn has_other_type(&self, set: &RawAssociationSet) -> bool
        ensures { IsTrue result ↔ BreaksTypes self.now set.now }
    {
        let Some(association) = self.lookups.association_of(&set.association) else {
            return false;
        };
        self.has_other_end(association, set.ends.as_slice())
    }

    // Whether one of these ends is of another type.
    fn has_other_end(&self, association: &RawAssociation, ends: &[RawSetEnd]) -> bool
        ensures { IsTrue result ↔ Any (HasOtherType (names_in self.now) self.now association.now) ends.now }
    {
        for end in ends {
            if self.is_other_type(association, end) {
                return true;
            }
        }
        false
    }

    // Whether the type of the association's end is neither the element type of the set at this end nor derived from it.
    fn is_other_type(&self, association: &RawAssociation, end: &RawSetEnd) -> bool
        ensures { IsTrue result ↔ HasOtherType (names_in self.now) self.now association.now end.now }
    {
        let lookups = self.lookups;
        let Some(ty) = lookups.type_of_role(association, &end.role) else {
            return false;
        };
        let Some(element) = element_at(lookups, end) else {
            return false;
        };
        !self.ancestry.is_up_from(ty, element)
    }
}

// The element type of the set at an end.
fn element_at(lookups: &Lookups<'_>, end: &RawSetEnd) -> Option<usize>
    ensures { result ≡ element_at lookups.now.model.now end.now }
{
    lookups.element_of(lookups.set_named(&end.set)?)
}

// V15: whether the ends of an association set don't name each role of its association once.
fn has_other_roles(
    alloc: Global,
    lookups: &Lookups<'_>,
    set: &RawAssociationSet,
) -> Result<bool, Memory>
    ensures { IfOk result (λ answer. IsTrue answer ↔ HasOtherRoles (names_in lookups.now.model.now) lookups.now.model.now set.now) }
{
    let Some(association) = lookups.association_of(&set.association) else {
        return Ok(false);
    };
    let holds = holds_each_once(alloc, association.ends.as_slice(), set.ends.as_slice())?;
    Ok(!holds)
}
