ghost use Rattle.std.specs.Prelude.{◌≡◌, ◌∷◌, [], option_map, IfOk, Some};
ghost use Rattle.std.specs.List.{filter_map};
ghost use Rattle.csdl_meaning.specs.ModelMeaning.{assoc_between, assoc_of, constraint_of, end_of, mult_of, prop_id, props_of_side};
ghost use Rattle.csdl_meaning.specs.csdl_making.Making.{AreStarts};

use crate::csdl_making::ids::{found_id, set_id, type_id};
use csdl_names::{Lookups, RawAssociation, RawAssociationSet, RawConstraint, RawEnd, RawRole};
use edm_types::{Assoc, Constraint, End, Mult};
use emc_base::{Memory, PropId, Seq, Txt, both, put_found};
use std::alloc::Global;

/// The association sets whose associations are found, by where the properties of each type begin.
pub(super) fn assocs_in(
    alloc: Global,
    lookups: &Lookups<'_>,
    starts: &Seq<usize>,
) -> Result<Seq<Assoc>, Memory>
    requires starts { AreStarts lookups.now.model.now starts.now }
    ensures { IfOk result (λ assocs. assocs ≡ filter_map (assoc_of lookups.now.model.now) lookups.now.model.now.container.association_sets) }
{
    let mut assocs = Seq::empty(alloc);
    for set in lookups.model.container.association_sets.as_slice() {
        put_found(&mut assocs, assoc_of(alloc, lookups, starts, set)?)?;
    }
    Ok(assocs)
}

// An association set with its association, where that is found and has two ends.
fn assoc_of(
    alloc: Global,
    lookups: &Lookups<'_>,
    starts: &Seq<usize>,
    set: &RawAssociationSet,
) -> Result<Option<Assoc>, Memory>
    requires starts { AreStarts lookups.now.model.now starts.now }
    ensures { IfOk result (λ assoc. assoc ≡ assoc_of lookups.now.model.now set.now) }
{
    let Some(association) = lookups.association_of(&set.association) else {
        return Ok(None);
    };
    let [first, second] = association.ends.as_slice() else {
        return Ok(None);
    };
    let assoc = assoc_between(alloc, lookups, starts, set, association, first, second)?;
    Ok(Some(assoc))
}

// An association set with its association, between these two ends.
fn assoc_between(
    alloc: Global,
    lookups: &Lookups<'_>,
    starts: &Seq<usize>,
    set: &RawAssociationSet,
    association: &RawAssociation,
    first: &RawEnd,
    second: &RawEnd,
) -> Result<Assoc, Memory>
    requires starts { AreStarts lookups.now.model.now starts.now }
    ensures { IfOk result (λ assoc. Some assoc ≡ assoc_between lookups.now.model.now set.now association.now (first.now ∷ second.now ∷ [])) }
{
    let names = names_of(alloc, set, association);
    let ends = ends_of(alloc, lookups, set, first, second);
    let constraint = constraint_in(alloc, lookups, starts, association, first);
    let ((set_name, assoc_name), ((one, other), constraint)) = both(names, both(ends, constraint))?;
    Ok(Assoc {
        set_name,
        assoc_name,
        first: one,
        second: other,
        constraint,
    })
}

// The names of an association set and of its association.
fn names_of(
    alloc: Global,
    set: &RawAssociationSet,
    association: &RawAssociation,
) -> Result<(Txt, Txt), Memory>
    ensures { IfOk result (λ names. names ≡ (set.now.name, association.now.name)) }
{
    both(set.name.copy(alloc), association.name.copy(alloc))
}

// Both ends of an association, with the entity sets that the association set has there.
fn ends_of(
    alloc: Global,
    lookups: &Lookups<'_>,
    set: &RawAssociationSet,
    first: &RawEnd,
    second: &RawEnd,
) -> Result<(End, End), Memory>
    ensures { IfOk result (λ ends. ends ≡ (end_of lookups.now.model.now set.now first.now, end_of lookups.now.model.now set.now second.now)) }
{
    both(
        end_of(alloc, lookups, set, first),
        end_of(alloc, lookups, set, second),
    )
}

// An end of an association, with the entity set that the association set has there.
fn end_of(
    alloc: Global,
    lookups: &Lookups<'_>,
    set: &RawAssociationSet,
    end: &RawEnd,
) -> Result<End, Memory>
    ensures { IfOk result (λ made. made ≡ end_of lookups.now.model.now set.now end.now) }
{
    let place = lookups.set_of_role(set, &end.role).unwrap_or(0);
    let ty = lookups.type_named(&end.ty).unwrap_or(0);
    let set = set_id(place)?;
    let ty = type_id(ty)?;
    let role = end.role.copy(alloc)?;
    Ok(End {
        role,
        set,
        ty,
        mult: mult_of(end.multiplicity.as_str()),
    })
}

fn mult_of(text: &str) -> Mult
    ensures { result ≡ mult_of text.now }
{
    match text {
        "1" => Mult::One,
        "0..1" => Mult::ZeroOrOne,
        _ => Mult::Many,
    }
}

// The constraint of an association, if it has one.
fn constraint_in(
    alloc: Global,
    lookups: &Lookups<'_>,
    starts: &Seq<usize>,
    association: &RawAssociation,
    first: &RawEnd,
) -> Result<Option<Constraint>, Memory>
    requires starts { AreStarts lookups.now.model.now starts.now }
    ensures { IfOk result (λ made. made ≡ option_map (constraint_of lookups.now.model.now association.now first.now) association.now.constraint) }
{
    match &association.constraint {
        None => Ok(None),
        Some(constraint) => {
            let made = constraint_of(alloc, lookups, starts, association, first, constraint)?;
            Ok(Some(made))
        }
    }
}

fn constraint_of(
    alloc: Global,
    lookups: &Lookups<'_>,
    starts: &Seq<usize>,
    association: &RawAssociation,
    first: &RawEnd,
    constraint: &RawConstraint,
) -> Result<Constraint, Memory>
    requires starts { AreStarts lookups.now.model.now starts.now }
    ensures { IfOk result (λ made. made ≡ constraint_of lookups.now.model.now association.now first.now constraint.now) }
{
    let dependent_first = constraint.dependent.role.as_str() == first.role.as_str();
    let principal = props_of_side(alloc, lookups, starts, association, &constraint.principal);
    let dependent = props_of_side(alloc, lookups, starts, association, &constraint.dependent);
    let (principal, dependent) = both(principal, dependent)?;
    Ok(Constraint {
        dependent_first,
        principal,
        dependent,
    })
}

// The properties of the Principal or the Dependent.
fn props_of_side(
    alloc: Global,
    lookups: &Lookups<'_>,
    starts: &Seq<usize>,
    association: &RawAssociation,
    side: &RawRole,
) -> Result<Seq<PropId>, Memory>
    requires starts { AreStarts lookups.now.model.now starts.now }
    ensures { IfOk result (λ ids. ids ≡ props_of_side lookups.now.model.now association.now side.now) }
{
    match lookups.type_of_role(association, &side.role) {
        None => Ok(Seq::empty(alloc)),
        Some(place) => ids_of_type(alloc, lookups, starts, place, &side.props),
    }
}

// The ids of the properties of these names that a type has.
fn ids_of_type(
    alloc: Global,
    lookups: &Lookups<'_>,
    starts: &Seq<usize>,
    place: usize,
    names: &Seq<Txt>,
) -> Result<Seq<PropId>, Memory>
    requires starts { AreStarts lookups.now.model.now starts.now }
    ensures { IfOk result (λ ids. ids ≡ filter_map (prop_id lookups.now.model.now place) names.now) }
{
    let mut ids = Seq::empty(alloc);
    for name in names.as_slice() {
        let found = lookups.prop_of_type(place, name);
        put_found(&mut ids, found_id(lookups, starts, found)?)?;
    }
    Ok(ids)
}
