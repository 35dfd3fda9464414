ghost use Rattle.std.specs.Prelude.{◌≡◌, ◌↔◌, IfOk, IsTrue, MatchOption};
ghost use Rattle.std.specs.Option.{option_map};
ghost use Rattle.emc_base.specs.Lists.{At};
ghost use Rattle.groupings.specs.least_fault.Least.{IsLeast};
ghost use Rattle.layouts.specs.Faults.{fault_cmp};
ghost use Rattle.msl_rules.specs.Found.{role_end};
ghost use Rattle.msl_rules.specs.NameRules.{HasUnresolvedPick, IsUnresolvedName};
ghost use Rattle.msl_meaning.specs.msl_names.LinkNames.{IsUnresolvedInEnds, LacksLinkColumns};

use crate::msl_names::in_table::InTable;
use crate::msl_names::lacking::first_of_none;
use edm_types::{Assoc, End};
use emc_base::{Memory, Seq};
use groupings::{Finder, earlier, earlier_of};
use layouts::{Fault, Rule, behind_member, fault_if, first_at};
use msl_rules::{
    RawEndMapping, RawFragment, RawLinkMapping, RawMapping, RawPair, RawSetMapping, RawTypeMapping,
};
use schema_names::{SchemaNames, WhichEnd};
use std::alloc::Global;

/// Searches for properties that the type of an end lacks.
#[derive(Clone, Copy)]
struct AtEnd<'a> {
    names: &'a SchemaNames<'a>,
    end: &'a End,
}

impl<'a> Finder<RawPair, Fault> for AtEnd<'a> {
    ghost use Rattle.msl_rules.specs.NameRules.{LacksProp};

    ghost wrong = { λ s. LacksProp s.names.now.model.now s.names.now.store.now s.end.now };

    fn find(&self, alloc: Global, _: usize, item: &RawPair) -> Result<Option<Fault>, Memory> {
        let ty = self.end.ty.index as usize;
        let prop = self.names.prop_named(ty, item.prop.as_str());
        let found = first_of_none(alloc, prop, "Name")?;
        Ok(found)
    }
}

/// Searches the ends in the mapping of an association set.
#[derive(Clone, Copy)]
struct OfAssoc<'a> {
    names: &'a SchemaNames<'a>,
    place: usize,
    assoc: &'a Assoc,
    ghost here: { At names.now.model.now.assocs place assoc.now },
}

impl<'a> OfAssoc<'a> {
    // The end that has a role.
    fn end(&self, role: &str) -> Option<&'a End>
        ensures { option_map (λ end. end.now) result ≡ role_end self.now.assoc.now role.now }
    {
        match self.names.end_named(self.place, role)? {
            WhichEnd::First => Some(&self.assoc.first),
            WhichEnd::Second => Some(&self.assoc.second),
        }
    }
}

/// The role, or else the properties.
impl<'a> Finder<RawEndMapping, Fault> for OfAssoc<'a> {
    ghost use Rattle.msl_rules.specs.NameRules.{IsUnresolvedEnd};

    ghost wrong = { λ s. IsUnresolvedEnd s.names.now.model.now s.names.now.store.now s.assoc.now };

    fn find(&self, alloc: Global, _: usize, item: &RawEndMapping) -> Result<Option<Fault>, Memory> {
        let end = self.end(item.role.as_str());
        let role = first_of_none(alloc, end, "Name")?;
        let Some(end) = end else {
            return Ok(role);
        };
        let search = AtEnd {
            names: self.names,
            end,
        };
        let props = first_at(alloc, "ScalarProperty", &search, &item.pairs)?;
        Ok(earlier(role, props))
    }
}

/// Searches the lists of a mapping.
#[derive(Clone, Copy)]
struct InMapping<'a> {
    names: &'a SchemaNames<'a>,
}

/// A fragment: its table, and then the columns.
impl<'a> Finder<RawFragment, Fault> for InMapping<'a> {
    ghost use Rattle.msl_rules.specs.NameRules.{IsUnresolvedFragment};

    ghost wrong = { λ s. IsUnresolvedFragment s.names.now.model.now s.names.now.store.now };

    fn find(&self, alloc: Global, _: usize, item: &RawFragment) -> Result<Option<Fault>, Memory> {
        let names = self.names;
        let named = names.table_named(item.table.as_str());
        let of_table = first_of_none(alloc, named, "StoreEntitySet")?;
        let Some(table) = named else {
            return Ok(of_table);
        };
        let columns = InTable { names, table }.first_in_fragment(alloc, item)?;
        Ok(earlier(of_table, columns))
    }
}

/// A type mapping: its TypeName, and its fragments.
impl<'a> Finder<RawTypeMapping, Fault> for InMapping<'a> {
    ghost use Rattle.msl_rules.specs.NameRules.{IsUnresolvedTypes};

    ghost wrong = { λ s. IsUnresolvedTypes s.names.now.model.now s.names.now.store.now };

    fn find(
        &self,
        alloc: Global,
        _: usize,
        item: &RawTypeMapping,
    ) -> Result<Option<Fault>, Memory> {
        let is_lacking = has_unresolved_pick(self.names, item);
        let picks = fault_if(alloc, is_lacking, Rule::Resolves, "TypeName")?;
        let fragments = first_at(alloc, "MappingFragment", self, &item.fragments)?;
        Ok(earlier(picks, fragments))
    }
}

/// The mapping of an entity set: the set, and its type mappings.
impl<'a> Finder<RawSetMapping, Fault> for InMapping<'a> {
    ghost use Rattle.msl_rules.specs.NameRules.{IsUnresolvedSet};

    ghost wrong = { λ s. IsUnresolvedSet s.names.now.model.now s.names.now.store.now };

    fn find(&self, alloc: Global, _: usize, item: &RawSetMapping) -> Result<Option<Fault>, Memory> {
        let named = self.names.set_named(item.name.as_str());
        let set = first_of_none(alloc, named, "Name")?;
        let types = first_at(alloc, "EntityTypeMapping", self, &item.types)?;
        Ok(earlier(set, types))
    }
}

/// The mapping of an association set: the set, its association and its table; and its ends, by the set and by the table.
impl<'a> Finder<RawLinkMapping, Fault> for InMapping<'a> {
    ghost use Rattle.msl_rules.specs.NameRules.{IsUnresolvedLink};

    ghost wrong = { λ s. IsUnresolvedLink s.names.now.model.now s.names.now.store.now };

    fn find(
        &self,
        alloc: Global,
        _: usize,
        item: &RawLinkMapping,
    ) -> Result<Option<Fault>, Memory> {
        let names = self.names;
        let set = names.association_set_named(item.name.as_str());
        let table = names.table_named(item.table.as_str());
        let of_set = first_of_none(alloc, set, "Name");
        let is_lacking = !names.names_association(item.association.as_str());
        let of_association = fault_if(alloc, is_lacking, Rule::Resolves, "TypeName");
        let of_table = first_of_none(alloc, table, "StoreEntitySet");
        let in_ends = first_in_ends(alloc, names, set, &item.ends);
        let in_columns = first_in_columns(alloc, names, table, item);
        let inside = earlier_of(of_table, earlier_of(in_ends, in_columns));
        earlier_of(of_set, earlier_of(of_association, inside))
    }
}

// Whether an item of the TypeName names no type.
fn has_unresolved_pick(names: &SchemaNames<'_>, types: &RawTypeMapping) -> bool
    ensures { IsTrue result ↔ HasUnresolvedPick names.now.model.now names.now.store.now types.now }
{
    types
        .picks
        .as_slice()
        .iter()
        .any(|pick| names.type_named(pick.reference.as_str()).is_none())
}

// The least of the roles and properties of the ends that don't resolve, where the association set is found.
fn first_in_ends(
    alloc: Global,
    names: &SchemaNames<'_>,
    set: Option<usize>,
    ends: &Seq<RawEndMapping>,
) -> Result<Option<Fault>, Memory>
    ensures { IfOk result (λ found. IsLeast fault_cmp (λ fault. MatchOption set ⊥ (λ a. IsUnresolvedInEnds names.now.model.now names.now.store.now ends.now a fault)) found) }
{
    let Some(place) = set else {
        return Ok(None);
    };
    let Some(assoc) = names.model.assocs.get(place) else {
        return Ok(None);
    };
    let search = OfAssoc {
        names,
        place,
        assoc,
    };
    let found = first_at(alloc, "EndProperty", &search, ends)?;
    Ok(found)
}

// The least of the columns in the mapping of an association set that its table lacks, where this is found.
fn first_in_columns(
    alloc: Global,
    names: &SchemaNames<'_>,
    table: Option<usize>,
    link: &RawLinkMapping,
) -> Result<Option<Fault>, Memory>
    ensures { IfOk result (λ found. IsLeast fault_cmp (λ fault. MatchOption table ⊥ (λ t. LacksLinkColumns names.now.model.now names.now.store.now link.now t fault)) found) }
{
    let Some(table) = table else {
        return Ok(None);
    };
    let search = InTable { names, table };
    let ends = first_at(alloc, "EndProperty", &search, &link.ends)?;
    let conds = first_at(alloc, "Condition", &search, &link.conds)?;
    Ok(earlier(ends, conds))
}

/// The least of the names in a mapping that stand for nothing. `Memory` comes where memory ran out.
pub fn first_unresolved_name(
    alloc: Global,
    names: &SchemaNames<'_>,
    raw: &RawMapping,
) -> Result<Option<Fault>, Memory>
    ensures { IfOk result (λ found. IsLeast fault_cmp (IsUnresolvedName names.now.model.now names.now.store.now raw.now) found) }
{
    let search = InMapping { names };
    let sets = first_at(alloc, "EntitySetMapping", &search, &raw.sets)?;
    let links = first_at(alloc, "AssociationSetMapping", &search, &raw.links)?;
    let found = behind_member(alloc, "EntityContainerMapping", earlier(sets, links))?;
    Ok(found)
}
