ghost use Rattle.std.specs.Prelude.{◌≡◌, [], IfOk};
ghost use Rattle.groupings.specs.least_fault.Least.{IsLeast};
ghost use Rattle.layouts.specs.Faults.{fault_cmp};
ghost use Rattle.layouts.specs.declared.rule.Rule.TheVariants.{WritesKey};
ghost use Rattle.layouts.specs.rule_places.Places.{IsAt};
ghost use Rattle.msl_meaning.specs.msl_found.NamedAt.{named_at};
ghost use Rattle.msl_rules.specs.Found.{prop_of_picks};
ghost use Rattle.msl_rules.specs.FragmentRules.{IsInFragments};
ghost use Rattle.msl_checks.specs.msl_written.Within.{named_in, schema_in};
ghost use Rattle.msl_checks.specs.msl_fragment_rules.FragmentFaults.{IsBroken, LeavesKey};

use crate::msl_fragment_rules::key::{leaves_key, set_key};
use crate::msl_written::{Between, MeantPairs, Writing, first_condition_fault};
use emc_base::Memory;
use groupings::{Finder, earlier_of};
use layouts::{Fault, Rule, behind_member, fault_here_if, first_at};
use msl_meaning::picked_type;
use msl_rules::{RawFragment, RawMapping, RawSetMapping, RawTypeMapping};
use std::alloc::Global;

/// Searches the fragments of a type mapping.
#[derive(Clone, Copy)]
struct OfTypes<'a> {
    between: &'a Between<'a>,
    // The place of the set.
    set: usize,
    types: &'a RawTypeMapping,
    // The type by whose properties names are looked up.
    ty: Option<usize>,
    ghost picked: { named_at between.now.names.now.model.now ty ≡ prop_of_picks between.now.names.now.model.now types.now.picks },
}

impl<'a> Finder<RawFragment, Fault> for OfTypes<'a> {
    ghost use Rattle.msl_rules.specs.FragmentRules.{IsFragmentFault};
    ghost use Rattle.msl_checks.specs.msl_written.Within.{schema_in};

    ghost wrong = { λ s. IsFragmentFault (schema_in s.between.now) s.types.now s.set };

    fn find(&self, alloc: Global, _: usize, item: &RawFragment) -> Result<Option<Fault>, Memory> {
        let Some(table) = self.between.names.table_named(item.table.as_str()) else {
            return Ok(None);
        };
        let writing = Writing {
            between: *self.between,
            ty: self.ty,
            table,
        };
        let found = first_broken(alloc, &writing, self.set, item)?;
        Ok(found)
    }
}

// The least of what is wrong in a fragment of the set at a place.
fn first_broken(
    alloc: Global,
    writing: &Writing<'_>,
    set: usize,
    fragment: &RawFragment,
) -> Result<Option<Fault>, Memory>
    ensures { IfOk result (λ found. IsLeast fault_cmp (IsBroken (schema_in writing.now.between) (named_in writing.now) set writing.now.table fragment.now) found) }
{
    let pairs = MeantPairs::of(alloc, writing, &fragment.pairs)?;
    let unfit = pairs.first_unfit(alloc);
    let unwritten = first_unwritten(alloc, &pairs, set);
    let foreign = pairs.first_enum(alloc);
    let again = pairs.first_again(alloc);
    drop(pairs);
    let key = set_key(writing.between.names.model, set);
    let cond = first_condition_fault(alloc, writing, key, &fragment.conds);
    let behind = earlier_of(cond, earlier_of(foreign, again));
    earlier_of(unfit, earlier_of(unwritten, behind))
}

// The key of the set at a place, where no pairs match it with the primary key of the table (V30).
fn first_unwritten(
    alloc: Global,
    pairs: &MeantPairs<'_>,
    set: usize,
) -> Result<Option<Fault>, Memory>
    ensures { IfOk result (λ found. IsLeast fault_cmp (λ fault. LeavesKey (schema_in pairs.now.writing.now.between) (named_in pairs.now.writing.now) set pairs.now.writing.now.table pairs.now.pairs.now × IsAt WritesKey [] fault) found) }
{
    let leaves_key = leaves_key(alloc, pairs, set)?;
    fault_here_if(alloc, leaves_key, Rule::WritesKey)
}

/// Searches the type mappings of a set.
#[derive(Clone, Copy)]
struct OfSet<'a> {
    between: &'a Between<'a>,
    // The place of the set.
    set: usize,
}

impl<'a> Finder<RawTypeMapping, Fault> for OfSet<'a> {
    ghost use Rattle.msl_rules.specs.FragmentRules.{IsTypesFault};
    ghost use Rattle.msl_checks.specs.msl_written.Within.{schema_in};

    ghost wrong = { λ s. IsTypesFault (schema_in s.between.now) s.set };

    fn find(
        &self,
        alloc: Global,
        _: usize,
        item: &RawTypeMapping,
    ) -> Result<Option<Fault>, Memory> {
        let search = OfTypes {
            between: self.between,
            set: self.set,
            types: item,
            ty: picked_type(self.between.names, item.picks.as_slice()),
        };
        let found = first_at(alloc, "MappingFragment", &search, &item.fragments)?;
        Ok(found)
    }
}

/// Searches the mappings of sets.
#[derive(Clone, Copy)]
struct InMapping<'a> {
    between: &'a Between<'a>,
}

impl<'a> Finder<RawSetMapping, Fault> for InMapping<'a> {
    ghost use Rattle.msl_rules.specs.FragmentRules.{IsSetFault};
    ghost use Rattle.msl_checks.specs.msl_written.Within.{schema_in};

    ghost wrong = { λ s. IsSetFault (schema_in s.between.now) };

    fn find(&self, alloc: Global, _: usize, item: &RawSetMapping) -> Result<Option<Fault>, Memory> {
        let Some(set) = self.between.names.set_named(item.name.as_str()) else {
            return Ok(None);
        };
        let search = OfSet {
            between: self.between,
            set,
        };
        let found = first_at(alloc, "EntityTypeMapping", &search, &item.types)?;
        Ok(found)
    }
}

/// The least of what is wrong in the fragments of entities (V29, V30, V33 to V35, V38 and V39). `Memory` comes where memory ran out.
pub fn first_fragment_fault(
    alloc: Global,
    between: &Between<'_>,
    raw: &RawMapping,
) -> Result<Option<Fault>, Memory>
    ensures { IfOk result (λ found. IsLeast fault_cmp (IsInFragments (schema_in between.now) raw.now) found) }
{
    let search = InMapping { between };
    let sets = first_at(alloc, "EntitySetMapping", &search, &raw.sets)?;
    let found = behind_member(alloc, "EntityContainerMapping", sets)?;
    Ok(found)
}
