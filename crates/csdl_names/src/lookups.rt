ghost use Rattle.std.specs.Prelude.{◌≡◌, ◌↔◌, IsTrue, length, map};
ghost use Rattle.std.specs.Option.{option_copied};
ghost use Rattle.groupings.specs.name_places.PlacesIn.{place_in};
ghost use Rattle.graphs.specs.base_chains.Chains.{base_at};
ghost use Rattle.csdl_names.specs.csdl_lists.References.{base_of, names_in};
ghost use Rattle.csdl_names.specs.csdl_lists.Scopes.{names_of};
ghost use Rattle.csdl_names.specs.PropPlaces.{own_prop, place_of_prop, prop_at, prop_of_type};
ghost use Rattle.csdl_names.specs.SetRoles.{element_of, element_of_role, set_end_of_role, set_of_role};
ghost use Rattle.csdl_names.specs.Unresolved.{end_of_role};

use crate::csdl_lists::{
    RawAssociation, RawAssociationSet, RawEnd, RawModel, RawProp, RawSetEnd, Scope,
};
use emc_base::{Seq, Txt};
use groupings::Places;

/// A declared property: the place of its type in the list of types, and its own place among the properties that this type declares.
#[derive(Clone, Copy, Debug, PartialEq, Eq)]
pub struct PropPlace {
    /// The place of the type.
    pub owner: usize,
    /// The place of the property in its type.
    pub place: usize,
}

/// A model in which names are looked up.
#[derive(Drop)]
pub struct Lookups<'a> {
    /// The model.
    pub model: &'a RawModel,
    /// What its names stand for.
    pub scope: &'a Scope,
    /// The places of the properties of each type.
    pub props: &'a Seq<Places>,
    /// The base type of each type, where it is found.
    pub bases: &'a Seq<Option<usize>>,
    ghost named: { names_of scope.now ≡ names_in model.now },
    ghost declared: { map place_in props.now ≡ map place_of_prop model.now.types },
    ghost based: { base_at bases.now ≡ base_of (names_in model.now) model.now },
    ghost counted: { length bases.now ≡ length model.now.types },
}

impl<'a> Lookups<'a> {
    ghost use Rattle.emc_base.specs.Lists.{At};
    ghost use Rattle.csdl_names.specs.declared.csdl_lists.raw.RawType.{RawType};
    ghost use Rattle.csdl_names.specs.Unresolved.{Declares, LacksProp, LacksRole, association_of, type_of_role};

    /// The type that a reference names.
    pub fn type_named(&self, reference: &Txt) -> Option<usize>
        ensures { result ≡ (names_in self.now.model.now).type_named reference.now }
    {
        self.scope.type_named(reference.as_str())
    }

    /// The association that a reference names.
    pub fn association_named(&self, reference: &Txt) -> Option<usize>
        ensures { result ≡ (names_in self.now.model.now).association_named reference.now }
    {
        self.scope.association_named(reference.as_str())
    }

    /// The entity set of a name.
    pub fn set_named(&self, name: &Txt) -> Option<usize>
        ensures { result ≡ (names_in self.now.model.now).set_named name.now }
    {
        self.scope.set_named(name.as_str())
    }

    /// Whether the reference names an association, and it has no end of this role.
    pub fn lacks_role(&self, reference: &Txt, role: &Txt) -> bool
        ensures { IsTrue result ↔ LacksRole (names_in self.now.model.now) self.now.model.now reference.now role.now }
    {
        let Some(association) = self.association_of(reference) else {
            return false;
        };
        end_of_role(association, role).is_none()
    }

    /// The type of the end that has this role, where both are found.
    pub fn type_of_role(&self, association: &RawAssociation, role: &Txt) -> Option<usize>
        ensures { result ≡ type_of_role (names_in self.now.model.now) self.now.model.now association.now role.now }
    {
        self.type_named(&end_of_role(association, role)?.ty)
    }

    /// Whether the type lacks the property: neither it nor a type above it declares it, and each type above it is found.
    pub fn lacks_prop(&self, ty: usize, name: &Txt) -> bool
        ensures { IsTrue result ↔ LacksProp (names_in self.now.model.now) self.now.model.now name.now ty }
    {
        let mut place = ty;
        for _ in 0..self.model.types.len() {
            let Some(ty) = self.model.types.get(place) else {
                return false;
            };
            if self.declares(place, name) {
                return false;
            }
            if ty.base.is_none() {
                return true;
            }
            let Some(base) = self.base(place) else {
                return false;
            };
            place = base;
        }
        false
    }

    /// The property of this name that a type has: the one that it declares, or else the one that its base type has.
    pub fn prop_of_type(&self, ty: usize, name: &Txt) -> Option<PropPlace>
        ensures { result ≡ prop_of_type (names_in self.now.model.now) self.now.model.now ty name.now }
    {
        let mut place = ty;
        for _ in 0..self.model.types.len() {
            let found = self.own_prop(place, name);
            if found.is_some() {
                return found;
            }
            place = self.base(place)?;
        }
        None
    }

    /// The property at a place.
    pub fn prop_at(&self, found: PropPlace) -> Option<&'a RawProp>
        ensures { option_copied result ≡ prop_at self.now.model.now found }
    {
        let ty = self.model.types.get(found.owner)?;
        ty.props.get(found.place)
    }

    /// The place of the entity set at the end of an association set that names this role.
    pub fn set_of_role(&self, set: &RawAssociationSet, role: &Txt) -> Option<usize>
        ensures { result ≡ set_of_role (names_in self.now.model.now) self.now.model.now set.now role.now }
    {
        self.set_named(&set_end_of_role(set, role)?.set)
    }

    /// The element type of the entity set at a place.
    pub fn element_of(&self, set: usize) -> Option<usize>
        ensures { result ≡ element_of (names_in self.now.model.now) self.now.model.now set }
    {
        self.type_named(&self.model.container.sets.get(set)?.element)
    }

    /// The element type of the entity set at the end of an association set that names this role.
    pub fn element_of_role(&self, set: &RawAssociationSet, role: &Txt) -> Option<usize>
        ensures { result ≡ element_of_role (names_in self.now.model.now) self.now.model.now set.now role.now }
    {
        self.element_of(self.set_of_role(set, role)?)
    }

    /// The base type of a type, where it is found.
    pub fn base(&self, ty: usize) -> Option<usize>
        ensures { result ≡ base_of (names_in self.now.model.now) self.now.model.now ty }
    {
        *self.bases.get(ty)?
    }

    /// Whether the type at a place declares the property.
    pub fn declares(&self, place: usize, name: &Txt) -> bool
        ensures { (type : RawType) → At self.now.model.now.types place type → (IsTrue result ↔ Declares type name.now) }
    {
        let Some(props) = self.props.get(place) else {
            return false;
        };
        props.place_of(name.as_str()).is_some()
    }

    /// The property of this name that the type at a place declares.
    pub fn own_prop(&self, owner: usize, name: &Txt) -> Option<PropPlace>
        ensures { result ≡ own_prop (names_in self.now.model.now) self.now.model.now owner name.now }
    {
        let place = self.props.get(owner)?.place_of(name.as_str())?;
        Some(PropPlace { owner, place })
    }

    /// The association itself that a reference names.
    pub fn association_of(&self, reference: &Txt) -> Option<&'a RawAssociation>
        ensures { option_copied result ≡ association_of (names_in self.now.model.now) self.now.model.now reference.now }
    {
        let place = self.association_named(reference)?;
        self.model.associations.get(place)
    }
}

/// The end of an association that has a role.
pub fn end_of_role<'a>(association: &'a RawAssociation, role: &Txt) -> Option<&'a RawEnd>
    ensures { option_copied result ≡ end_of_role association.now role.now }
{
    let role = role.as_str();
    association
        .ends
        .as_slice()
        .iter()
        .find(|end| role == end.role.as_str())
}

// The end of an association set that names a role.
fn set_end_of_role<'a>(set: &'a RawAssociationSet, role: &Txt) -> Option<&'a RawSetEnd>
    ensures { option_copied result ≡ set_end_of_role set.now role.now }
{
    let role = role.as_str();
    set.ends
        .as_slice()
        .iter()
        .find(|end| role == end.role.as_str())
}
