ghost use Rattle.std.specs.Prelude.{◌↔◌, Any, codes, IfOk, IsTrue, MatchOption};
ghost use Rattle.emc_base.specs.Lists.{At};
ghost use Rattle.groupings.specs.least_fault.Least.{IsLeast};
ghost use Rattle.layouts.specs.Faults.{fault_cmp};
ghost use Rattle.layouts.specs.rule_places.Places.{InList};
ghost use Rattle.round_trip.specs.Words.{EntitySet};
ghost use Rattle.schema_names.specs.SchemaNames.{set_named};
ghost use Rattle.msl_rules.specs.NameRules.{BreaksTypeNameRules, IsPickedFault, PicksOther};

use crate::msl_picks::derived::is_derived;
use crate::msl_picks::shared::{OfPicks, types_of};
use edm_types::EntitySet;
use emc_base::Memory;
use groupings::{Finder, earlier};
use layouts::{Fault, Rule, behind_member, fault_if, first_at};
use msl_rules::{RawMapping, RawPick, RawSetMapping, RawTypeMapping};
use schema_names::SchemaNames;
use std::alloc::Global;

/// Searches the type mappings of an entity set for types of others.
#[derive(Clone, Copy)]
struct OfSet<'a> {
    names: &'a SchemaNames<'a>,
    set: &'a EntitySet,
}

/// The TypeName.
impl<'a> Finder<RawTypeMapping, Fault> for OfSet<'a> {
    ghost use Rattle.msl_rules.specs.NameRules.{IsPickedFault};

    ghost wrong = { λ s. IsPickedFault s.names.now.model.now s.set.now };

    fn find(
        &self,
        alloc: Global,
        _: usize,
        item: &RawTypeMapping,
    ) -> Result<Option<Fault>, Memory> {
        let is_other = has_other_pick(self.names, self.set, item);
        let found = fault_if(alloc, is_other, Rule::PickedType, "TypeName")?;
        Ok(found)
    }
}

/// Searches the lists of a mapping.
#[derive(Clone, Copy)]
struct InMapping<'a> {
    names: &'a SchemaNames<'a>,
}

/// A type mapping: the properties that its fragments name.
impl<'a> Finder<RawTypeMapping, Fault> for InMapping<'a> {
    ghost use Rattle.msl_rules.specs.NameRules.{IsSharedTypesFault};

    ghost wrong = { λ s. IsSharedTypesFault s.names.now.model.now };

    fn find(
        &self,
        alloc: Global,
        _: usize,
        item: &RawTypeMapping,
    ) -> Result<Option<Fault>, Memory> {
        let picks = item.picks.as_slice();
        let types = types_of(alloc, self.names, picks)?;
        let search = OfPicks {
            names: self.names,
            picks,
            types: types.as_slice(),
        };
        let found = first_at(alloc, "MappingFragment", &search, &item.fragments)?;
        Ok(found)
    }
}

/// The mapping of an entity set: the types that it picks, and the properties that they share.
impl<'a> Finder<RawSetMapping, Fault> for InMapping<'a> {
    ghost use Rattle.msl_rules.specs.NameRules.{IsTypeNameFault};

    ghost wrong = { λ s. IsTypeNameFault s.names.now.model.now };

    fn find(&self, alloc: Global, _: usize, item: &RawSetMapping) -> Result<Option<Fault>, Memory> {
        let picked = first_picked(alloc, self.names, item)?;
        let shared = first_at(alloc, "EntityTypeMapping", self, &item.types)?;
        Ok(earlier(picked, shared))
    }
}

// The least of the types that don't belong to the set, where it is found.
fn first_picked(
    alloc: Global,
    names: &SchemaNames<'_>,
    mapping: &RawSetMapping,
) -> Result<Option<Fault>, Memory>
    ensures { IfOk result (λ found. IsLeast fault_cmp (λ fault. MatchOption (set_named names.now.model.now mapping.now.name) ⊥
        (λ s. (entry : EntitySet) × At names.now.model.now.sets s entry × InList (codes "EntityTypeMapping") (IsPickedFault names.now.model.now entry) mapping.now.types fault)) found) }
{
    let Some(place) = names.set_named(mapping.name.as_str()) else {
        return Ok(None);
    };
    let Some(set) = names.model.sets.get(place) else {
        return Ok(None);
    };
    let search = OfSet { names, set };
    let found = first_at(alloc, "EntityTypeMapping", &search, &mapping.types)?;
    Ok(found)
}

// Whether a type in the TypeName doesn't belong to the set.
fn has_other_pick(names: &SchemaNames<'_>, set: &EntitySet, types: &RawTypeMapping) -> bool
    ensures { IsTrue result ↔ Any (PicksOther names.now.model.now set.now) types.now.picks }
{
    types
        .picks
        .as_slice()
        .iter()
        .any(|pick| picks_other(names, set, pick))
}

// Whether the type of a pick is neither the element type of the set nor derived from it.
fn picks_other(names: &SchemaNames<'_>, set: &EntitySet, pick: &RawPick) -> bool
    ensures { IsTrue result ↔ PicksOther names.now.model.now set.now pick.now }
{
    let Some(ty) = names.type_named(pick.reference.as_str()) else {
        return false;
    };
    !is_derived(names, ty, set.element)
}

/// The least of the types in a mapping that their sets don't have, and of the names that stand for no property which the types of their
/// TypeName share. `Memory` comes where memory ran out.
pub fn first_type_name_fault(
    alloc: Global,
    names: &SchemaNames<'_>,
    raw: &RawMapping,
) -> Result<Option<Fault>, Memory>
    ensures { IfOk result (λ found. IsLeast fault_cmp (BreaksTypeNameRules names.now.model.now raw.now) found) }
{
    let search = InMapping { names };
    let sets = first_at(alloc, "EntitySetMapping", &search, &raw.sets)?;
    let found = behind_member(alloc, "EntityContainerMapping", sets)?;
    Ok(found)
}
