ghost use Rattle.std.specs.Prelude.{◌≡◌, ◌↔◌, All, IfOk, IsTrue, Some, map};
ghost use Rattle.groupings.specs.least_fault.Least.{IsLeast};
ghost use Rattle.layouts.specs.Faults.{fault_cmp};
ghost use Rattle.msl_rules.specs.NameRules.{IsUnsharedName, NamesNoShared};
ghost use Rattle.msl_meaning.specs.msl_picks.PickedProps.{pick_type, prop_in};

use emc_base::{Memory, PropId, Txt};
use groupings::{Finder, earlier};
use layouts::{Fault, Rule, fault_if, first_at};
use msl_rules::{RawCond, RawFragment, RawPair, RawPick};
use schema_names::SchemaNames;
use std::alloc::Global;

/// Searches for names that stand for no property which the types of a TypeName share.
#[derive(Clone, Copy)]
pub struct OfPicks<'a> {
    /// The names of the entity model.
    pub names: &'a SchemaNames<'a>,
    /// The items of the TypeName.
    pub picks: &'a [RawPick],
    /// The place of the type that each item names, where it names one.
    pub types: &'a [Option<usize>],
    ghost named: { types.now ≡ map (pick_type names.now.model.now) picks.now },
}

impl<'a> OfPicks<'a> {
    // Whether no property is what the name stands for in each type of the TypeName. It is looked for at the property of this number first.
    fn names_no_shared(&self, name: &Txt, near: usize) -> bool
        ensures { IsTrue result ↔ NamesNoShared self.now.names.now.model.now self.now.picks.now name.now }
    {
        let Some((first, others)) = self.types.split_first() else {
            return false;
        };
        let Some(shared) = prop_in(self.names, *first, name, near) else {
            return true;
        };
        !each_has_prop(self.names, others, name, near, shared)
    }

    // The name, where it stands for no shared property.
    fn first_unshared(
        &self,
        alloc: Global,
        name: &Txt,
        near: usize,
    ) -> Result<Option<Fault>, Memory>
        ensures { IfOk result (λ found. IsLeast fault_cmp (IsUnsharedName self.now.names.now.model.now self.now.picks.now name.now) found) }
    {
        let is_unshared = self.names_no_shared(name, near);
        let found = fault_if(alloc, is_unshared, Rule::SharedProperty, "Name")?;
        Ok(found)
    }
}

/// The property of a pair.
impl<'a> Finder<RawPair, Fault> for OfPicks<'a> {
    ghost use Rattle.msl_rules.specs.NameRules.{IsUnsharedName};

    ghost wrong = { λ s _ pair. IsUnsharedName s.names.now.model.now s.picks.now pair.prop };

    fn find(&self, alloc: Global, place: usize, item: &RawPair) -> Result<Option<Fault>, Memory> {
        let found = self.first_unshared(alloc, &item.prop, place)?;
        Ok(found)
    }
}

/// The property of a condition, where it names one.
impl<'a> Finder<RawCond, Fault> for OfPicks<'a> {
    ghost use Rattle.std.specs.Prelude.{MatchOption};
    ghost use Rattle.msl_rules.specs.NameRules.{IsUnsharedName};

    ghost wrong = { λ s _ cond fault. MatchOption cond.prop ⊥ (λ name. IsUnsharedName s.names.now.model.now s.picks.now name fault) };

    fn find(&self, alloc: Global, _: usize, item: &RawCond) -> Result<Option<Fault>, Memory> {
        let Some(name) = &item.prop else {
            return Ok(None);
        };
        let found = self.first_unshared(alloc, name, 0)?;
        Ok(found)
    }
}

/// A fragment: its pairs, and its conditions.
impl<'a> Finder<RawFragment, Fault> for OfPicks<'a> {
    ghost use Rattle.msl_rules.specs.NameRules.{IsSharedFault};

    ghost wrong = { λ s. IsSharedFault s.names.now.model.now s.picks.now };

    fn find(&self, alloc: Global, _: usize, item: &RawFragment) -> Result<Option<Fault>, Memory> {
        let pairs = first_at(alloc, "ScalarProperty", self, &item.pairs)?;
        let conds = first_at(alloc, "Condition", self, &item.conds)?;
        Ok(earlier(pairs, conds))
    }
}

// Whether the name stands for this property in each of the types.
fn each_has_prop(
    names: &SchemaNames<'_>,
    types: &[Option<usize>],
    name: &Txt,
    near: usize,
    shared: PropId,
) -> bool
    ensures { IsTrue result ↔ All (λ ty. prop_in names.now.model.now name.now ty ≡ Some shared) types.now }
{
    types
        .iter()
        .all(|ty| has_prop(names, *ty, name, near, shared))
}

// Whether the name stands for this property in a type.
fn has_prop(
    names: &SchemaNames<'_>,
    ty: Option<usize>,
    name: &Txt,
    near: usize,
    shared: PropId,
) -> bool
    ensures { IsTrue result ↔ (prop_in names.now.model.now name.now ty ≡ Some shared) }
{
    prop_in(names, ty, name, near).is_some_and(|prop| prop == shared)
}

// The property that the name stands for in a type. It is looked for at the type's property of this number first.
fn prop_in(names: &SchemaNames<'_>, ty: Option<usize>, name: &Txt, near: usize) -> Option<PropId>
    ensures { result ≡ prop_in names.now.model.now name.now ty }
{
    names.prop_near(ty?, name.as_str(), near)
}

/// The place of the type that each item of a TypeName names, where it names one.
pub fn types_of(
    alloc: Global,
    names: &SchemaNames<'_>,
    picks: &[RawPick],
) -> Result<Vec<Option<usize>>, Memory>
    ensures { IfOk result (λ types. types.items ≡ map (pick_type names.now.model.now) picks.now) }
{
    let mut types = Vec::new(alloc);
    for pick in picks {
        types.push(names.type_named(pick.reference.as_str()))?;
    }
    Ok(types)
}
