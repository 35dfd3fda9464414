ghost use Rattle.std.specs.Prelude.{◌≡◌, ◌↔◌, Any, Contains, IfOk, IsTrue, slice_get};
ghost use Rattle.std.specs.Option.{option_and_then, option_copied};
ghost use Rattle.csdl_names.specs.csdl_lists.References.{names_in};
ghost use Rattle.csdl_associations.specs.csdl_constraints.Sides.{HasKeyProp, HasNullable, IsNullable, IsWholeKey, key_names, prop_named, root_key, roots_in, type_of_prop};

use csdl_names::{Lookups, RawAssociation, RawProp, RawRole};
use csdl_types::{PropType, Typing};
use emc_base::{Memory, Seq, Txt};
use groupings::holds_each_once;
use std::alloc::Global;

/// What the sides of constraints name: keys and properties, looked up.
#[derive(Drop)]
pub struct Sides<'a> {
    /// The model, in which names are looked up.
    pub lookups: &'a Lookups<'a>,
    /// The type at the top above each type.
    pub roots: &'a [usize],
    ghost rooted: { roots.now ≡ roots_in lookups.now.model.now },
}

impl<'a> Sides<'a> {
    /// The names of the key of the type at a place.
    pub(super) fn key_of(&self, ty: usize) -> &'a [Txt]
        ensures { result.now ≡ key_names (names_in self.now.lookups.now.model.now) self.now.lookups.now.model.now ty }
    {
        match self.root_key(ty) {
            Some(key) => key.as_slice(),
            None => &[],
        }
    }

    // The key that the type at the top above a type gives.
    fn root_key(&self, ty: usize) -> Option<&'a Seq<Txt>>
        ensures { option_copied result ≡ root_key (names_in self.now.lookups.now.model.now) self.now.lookups.now.model.now ty }
    {
        let root = root_at(self.roots, ty)?;
        self.lookups.model.types.get(root)?.key.as_ref()
    }

    // The property of this name that a type has.
    fn prop_named(&self, ty: usize, name: &Txt) -> Option<&'a RawProp>
        ensures { option_copied result ≡ prop_named (names_in self.now.lookups.now.model.now) self.now.lookups.now.model.now ty name.now }
    {
        let found = self.lookups.prop_of_type(ty, name)?;
        self.lookups.prop_at(found)
    }

    // What the Type of that property names.
    pub(super) fn type_of_prop<T: Typing>(
        &self,
        typing: &T,
        ty: usize,
        name: &Txt,
    ) -> Option<PropType>
        ensures { result ≡ type_of_prop (names_in self.now.lookups.now.model.now) self.now.lookups.now.model.now (T.types typing.now) ty name.now }
    {
        let prop = self.prop_named(ty, name)?;
        typing.type_named(prop.kind.as_str())
    }

    // Whether the property may be null.
    fn is_nullable(&self, ty: usize, name: &Txt) -> bool
        ensures { IsTrue result ↔ IsNullable (names_in self.now.lookups.now.model.now) self.now.lookups.now.model.now ty name.now }
    {
        match self.prop_named(ty, name) {
            Some(prop) => prop.nullable,
            None => false,
        }
    }

    /// Whether one of the properties of the side may be null.
    pub(super) fn has_nullable(&self, association: &RawAssociation, side: &RawRole) -> bool
        ensures { IsTrue result ↔ HasNullable (names_in self.now.lookups.now.model.now) self.now.lookups.now.model.now association.now side.now }
    {
        let Some(ty) = self.lookups.type_of_role(association, &side.role) else {
            return false;
        };
        self.are_some_nullable(ty, side.props.as_slice())
    }

    // Whether one of these properties of a type may be null.
    fn are_some_nullable(&self, ty: usize, props: &[Txt]) -> bool
        ensures { IsTrue result ↔ Any (IsNullable (names_in self.now.lookups.now.model.now) self.now.lookups.now.model.now ty) props.now }
    {
        for name in props {
            if self.is_nullable(ty, name) {
                return true;
            }
        }
        false
    }

    /// Whether one of the properties of the side is in the key of its type.
    pub(super) fn has_key_prop(&self, association: &RawAssociation, side: &RawRole) -> bool
        ensures { IsTrue result ↔ HasKeyProp (names_in self.now.lookups.now.model.now) self.now.lookups.now.model.now association.now side.now }
    {
        let Some(ty) = self.lookups.type_of_role(association, &side.role) else {
            return false;
        };
        are_some_among(self.key_of(ty), side.props.as_slice())
    }

    /// Whether the properties of the side are the whole key of its type. `Memory` comes where memory ran out.
    pub(super) fn is_whole_key(
        &self,
        alloc: Global,
        association: &RawAssociation,
        side: &RawRole,
    ) -> Result<bool, Memory>
        ensures { IfOk result (λ answer. IsTrue answer ↔ IsWholeKey (names_in self.now.lookups.now.model.now) self.now.lookups.now.model.now association.now side.now) }
    {
        let Some(ty) = self.lookups.type_of_role(association, &side.role) else {
            return Ok(false);
        };
        let answer = holds_each_once(alloc, self.key_of(ty), side.props.as_slice())?;
        Ok(answer)
    }
}

// The type at the top above a type.
fn root_at(roots: &[usize], ty: usize) -> Option<usize>
    ensures { result ≡ slice_get roots.now ty }
{
    roots.get(ty).copied()
}

// Whether one of these names is among the others.
fn are_some_among(others: &[Txt], names: &[Txt]) -> bool
    ensures { IsTrue result ↔ Any (Contains others.now) names.now }
{
    names.iter().any(|name| is_among(others, name))
}

// Whether the name is among these.
fn is_among(names: &[Txt], name: &Txt) -> bool
    ensures { IsTrue result ↔ Contains names.now name.now }
{
    names.iter().any(|other| other.as_str() == name.as_str())
}
