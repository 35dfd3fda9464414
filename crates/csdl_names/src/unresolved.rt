ghost use Rattle.std.specs.Prelude.{◌≡◌, IfOk, codes};
ghost use Rattle.json_form.specs.declared.pointer.Step.TheVariants.{Member};
ghost use Rattle.layouts.specs.Inside.{Under};
ghost use Rattle.layouts.specs.Faults.{fault_cmp};
ghost use Rattle.groupings.specs.least_fault.Least.{IsLeast};
ghost use Rattle.csdl_names.specs.csdl_lists.References.{names_in};
ghost use Rattle.csdl_names.specs.Unresolved.{IsUnresolved, IsUnresolvedBase, IsUnresolvedInConstraint, IsUnresolvedInContainer, IsUnresolvedInKey, IsUnresolvedInRole, LacksRoleAt};
ghost use Rattle.layouts.specs.rule_places.Names.{NamesNothing};

use crate::climbs::allow_climbs;
use crate::csdl_lists::{
    RawAssociation, RawAssociationSet, RawConstraint, RawContainer, RawEnd, RawNav, RawRole,
    RawSet, RawSetEnd, RawType,
};
use crate::lookups::{Lookups, end_of_role};
use emc_base::{Memory, Seq, Txt};
use groupings::{Finder, earlier_of};
use layouts::{Fault, Rule, behind_member, fault_if, first_at};
use std::alloc::Global;

/// An entity set: its element type.
impl<'a> Finder<RawSet, Fault> for Lookups<'a> {
    ghost use Rattle.csdl_names.specs.Unresolved.{IsUnresolvedInSet};

    ghost wrong = { λ s. IsUnresolvedInSet (names_in s.model.now) s.model.now };

    fn find(&self, alloc: Global, _: usize, item: &RawSet) -> Result<Option<Fault>, Memory> {
        let ty = self.type_named(&item.element);
        let found = first_of_none(alloc, ty, "EntityType")?;
        Ok(found)
    }
}

/// The ends of an association set.
#[derive(Drop)]
struct SetEnds<'a> {
    lookups: &'a Lookups<'a>,
    set: &'a RawAssociationSet,
}

/// Its role and its entity set.
impl<'a> Finder<RawSetEnd, Fault> for SetEnds<'a> {
    ghost use Rattle.csdl_names.specs.Unresolved.{IsUnresolvedInSetEnd};

    ghost wrong = { λ s. IsUnresolvedInSetEnd (names_in s.lookups.now.model.now) s.lookups.now.model.now s.set.now };

    fn find(&self, alloc: Global, _: usize, item: &RawSetEnd) -> Result<Option<Fault>, Memory> {
        let lookups = self.lookups;
        let role = first_of_role(alloc, lookups, &self.set.association, &item.role, "Role");
        let named = lookups.set_named(&item.set);
        let set = first_of_none(alloc, named, "EntitySet");
        earlier_of(role, set)
    }
}

/// An association set: its association, and its ends.
impl<'a> Finder<RawAssociationSet, Fault> for Lookups<'a> {
    ghost use Rattle.csdl_names.specs.Unresolved.{IsUnresolvedInAssociationSet};

    ghost wrong = { λ s. IsUnresolvedInAssociationSet (names_in s.model.now) s.model.now };

    fn find(
        &self,
        alloc: Global,
        _: usize,
        item: &RawAssociationSet,
    ) -> Result<Option<Fault>, Memory> {
        let named = self.association_named(&item.association);
        let association = first_of_none(alloc, named, "Association");
        let search = SetEnds {
            lookups: self,
            set: item,
        };
        let ends = first_at(alloc, "End", &search, &item.ends);
        earlier_of(association, ends)
    }
}

/// A navigation property: its association, and its two roles.
impl<'a> Finder<RawNav, Fault> for Lookups<'a> {
    ghost use Rattle.csdl_names.specs.Unresolved.{IsUnresolvedInNav};

    ghost wrong = { λ s. IsUnresolvedInNav (names_in s.model.now) s.model.now };

    fn find(&self, alloc: Global, _: usize, item: &RawNav) -> Result<Option<Fault>, Memory> {
        let named = self.association_named(&item.relationship);
        let association = first_of_none(alloc, named, "Relationship");
        let from = first_of_role(alloc, self, &item.relationship, &item.from_role, "FromRole");
        let to = first_of_role(alloc, self, &item.relationship, &item.to_role, "ToRole");
        earlier_of(association, earlier_of(from, to))
    }
}

/// Names of properties of a type.
#[derive(Drop)]
struct PropNames<'a> {
    lookups: &'a Lookups<'a>,
    ty: usize,
}

impl<'a> Finder<Txt, Fault> for PropNames<'a> {
    ghost use Rattle.csdl_names.specs.Unresolved.{IsUnresolvedProp};

    ghost wrong = { λ s. IsUnresolvedProp (names_in s.lookups.now.model.now) s.lookups.now.model.now s.ty };

    fn find(&self, alloc: Global, _: usize, item: &Txt) -> Result<Option<Fault>, Memory> {
        if !self.lookups.lacks_prop(self.ty, item) {
            return Ok(None);
        }
        Ok(Some(Fault::here(alloc, Rule::Resolves)))
    }
}

/// A type: its base type, its key, and its navigation properties.
impl<'a> Finder<RawType, Fault> for Lookups<'a> {
    ghost use Rattle.csdl_names.specs.Unresolved.{IsUnresolvedInType};

    ghost wrong = { λ s. IsUnresolvedInType (names_in s.model.now) s.model.now };

    fn find(&self, alloc: Global, place: usize, item: &RawType) -> Result<Option<Fault>, Memory> {
        let base = first_of_base(alloc, self, &item.base);
        let key = first_in_key(alloc, self, place, &item.key);
        let navs = first_at(alloc, "NavigationProperty", self, &item.navs);
        earlier_of(base, earlier_of(key, navs))
    }
}

/// An end of an association: its type.
impl<'a> Finder<RawEnd, Fault> for Lookups<'a> {
    ghost use Rattle.csdl_names.specs.Unresolved.{IsUnresolvedInEnd};

    ghost wrong = { λ s. IsUnresolvedInEnd (names_in s.model.now) s.model.now };

    fn find(&self, alloc: Global, _: usize, item: &RawEnd) -> Result<Option<Fault>, Memory> {
        let ty = self.type_named(&item.ty);
        let found = first_of_none(alloc, ty, "Type")?;
        Ok(found)
    }
}

/// An association: the types of its ends, and its constraint.
impl<'a> Finder<RawAssociation, Fault> for Lookups<'a> {
    ghost use Rattle.csdl_names.specs.Unresolved.{IsUnresolvedInAssociation};

    ghost wrong = { λ s. IsUnresolvedInAssociation (names_in s.model.now) s.model.now };

    fn find(
        &self,
        alloc: Global,
        _: usize,
        item: &RawAssociation,
    ) -> Result<Option<Fault>, Memory> {
        let ends = first_at(alloc, "End", self, &item.ends);
        let Some(constraint) = &item.constraint else {
            return ends;
        };
        earlier_of(ends, first_in_constraint(alloc, self, item, constraint))
    }
}

// This member names nothing, where nothing was found.
fn first_of_none(alloc: Global, named: Option<usize>, member: &str) -> Result<Option<Fault>, Memory>
    ensures { IfOk result (λ found. IsLeast fault_cmp (NamesNothing named member.now) found) }
{
    let found = fault_if(alloc, named.is_none(), Rule::Resolves, member)?;
    Ok(found)
}

// The role at this member is none of the association that the reference names.
fn first_of_role(
    alloc: Global,
    lookups: &Lookups<'_>,
    reference: &Txt,
    role: &Txt,
    member: &str,
) -> Result<Option<Fault>, Memory>
    ensures { IfOk result (IsLeast fault_cmp (LacksRoleAt (names_in lookups.now.model.now) lookups.now.model.now member.now reference.now role.now)) }
{
    let is_lacking = lookups.lacks_role(reference, role);
    let found = fault_if(alloc, is_lacking, Rule::Resolves, member)?;
    Ok(found)
}

// The base type, where one is given, names nothing.
fn first_of_base(
    alloc: Global,
    lookups: &Lookups<'_>,
    base: &Option<Txt>,
) -> Result<Option<Fault>, Memory>
    ensures { IfOk result (λ found. IsLeast fault_cmp (IsUnresolvedBase (names_in lookups.now.model.now) lookups.now.model.now base.now) found) }
{
    let Some(base) = base else {
        return Ok(None);
    };
    let named = lookups.type_named(base);
    let found = first_of_none(alloc, named, "BaseType")?;
    Ok(found)
}

// The least of the names of a key that are no properties of the type.
fn first_in_key(
    alloc: Global,
    lookups: &Lookups<'_>,
    ty: usize,
    key: &Option<Seq<Txt>>,
) -> Result<Option<Fault>, Memory>
    ensures { IfOk result (λ found. IsLeast fault_cmp (IsUnresolvedInKey (names_in lookups.now.model.now) lookups.now.model.now ty key.now) found) }
{
    let Some(names) = key else {
        return Ok(None);
    };
    let found = first_at(alloc, "Key", &PropNames { lookups, ty }, names)?;
    Ok(found)
}

// The least of what doesn't resolve in the Principal or the Dependent of a constraint.
fn first_in_role(
    alloc: Global,
    lookups: &Lookups<'_>,
    association: &RawAssociation,
    role: &RawRole,
) -> Result<Option<Fault>, Memory>
    ensures { IfOk result (IsLeast fault_cmp (IsUnresolvedInRole (names_in lookups.now.model.now) lookups.now.model.now association.now role.now)) }
{
    let is_lacking = end_of_role(association, &role.role).is_none();
    let end = fault_if(alloc, is_lacking, Rule::Resolves, "Role");
    let Some(ty) = lookups.type_of_role(association, &role.role) else {
        return end;
    };
    let props = first_at(
        alloc,
        "PropertyRef",
        &PropNames { lookups, ty },
        &role.props,
    );
    earlier_of(end, props)
}

// The same, seen from the constraint whose member it is.
fn first_in_role_at(
    alloc: Global,
    lookups: &Lookups<'_>,
    association: &RawAssociation,
    role: &RawRole,
    member: &str,
) -> Result<Option<Fault>, Memory>
    ensures { IfOk result (IsLeast fault_cmp (Under (Member member.now) (IsUnresolvedInRole (names_in lookups.now.model.now) lookups.now.model.now association.now role.now))) }
{
    let found = first_in_role(alloc, lookups, association, role)?;
    behind_member(alloc, member, found)
}

// The least of what doesn't resolve in a constraint, seen from the association.
fn first_in_constraint(
    alloc: Global,
    lookups: &Lookups<'_>,
    association: &RawAssociation,
    constraint: &RawConstraint,
) -> Result<Option<Fault>, Memory>
    ensures { IfOk result (IsLeast fault_cmp (Under (Member (codes "ReferentialConstraint")) (IsUnresolvedInConstraint (names_in lookups.now.model.now) lookups.now.model.now association.now constraint.now))) }
{
    let principal = first_in_role_at(
        alloc,
        lookups,
        association,
        &constraint.principal,
        "Principal",
    );
    let dependent = first_in_role_at(
        alloc,
        lookups,
        association,
        &constraint.dependent,
        "Dependent",
    );
    let found = earlier_of(principal, dependent)?;
    behind_member(alloc, "ReferentialConstraint", found)
}

// The least of what doesn't resolve in the container, seen from the model.
fn first_in_container(
    alloc: Global,
    lookups: &Lookups<'_>,
    container: &RawContainer,
) -> Result<Option<Fault>, Memory>
    ensures { IfOk result (IsLeast fault_cmp (Under (Member (codes "EntityContainer")) (IsUnresolvedInContainer (names_in lookups.now.model.now) lookups.now.model.now container.now))) }
{
    let sets = first_at(alloc, "EntitySet", lookups, &container.sets);
    let associations = first_at(
        alloc,
        "AssociationSet",
        lookups,
        &container.association_sets,
    );
    let found = earlier_of(sets, associations)?;
    behind_member(alloc, "EntityContainer", found)
}

/// The least of the names that resolve to nothing of the sort that is needed. `Memory` comes where memory ran out, and where
/// the look-ups of properties may take very many steps.
pub fn first_unresolved(alloc: Global, lookups: &Lookups<'_>) -> Result<Option<Fault>, Memory>
    ensures { IfOk result (λ found. IsLeast fault_cmp (IsUnresolved lookups.now.model.now) found) }
{
    allow_climbs(lookups)?;
    let container = first_in_container(alloc, lookups, &lookups.model.container);
    let types = first_at(alloc, "EntityType", lookups, &lookups.model.types);
    let associations = first_at(alloc, "Association", lookups, &lookups.model.associations);
    earlier_of(container, earlier_of(types, associations))
}
