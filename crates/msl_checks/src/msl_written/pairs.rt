ghost use Rattle.std.specs.Prelude.{◌≡◌, ◌↔◌, [], codes, IfOk, IsTrue, MatchOption, map};
ghost use Rattle.std.specs.List.{filter_map};
ghost use Rattle.groupings.specs.least_fault.Least.{IsLeast};
ghost use Rattle.layouts.specs.Faults.{fault_cmp};
ghost use Rattle.layouts.specs.declared.rule.Rule.TheVariants.{WrittenOnce};
ghost use Rattle.layouts.specs.rule_places.Places.{InList, IsAt};
ghost use Rattle.round_trip.specs.soundness.mappings.Fragments.{WritesToFitting};
ghost use Rattle.round_trip.specs.soundness.mappings.Joined.{WritesNoBarredEnum};
ghost use Rattle.msl_rules.specs.FragmentRules.{IsEnumFault, IsUnfitFault, IsWrittenBefore};
ghost use Rattle.msl_checks.specs.msl_written.Within.{meant_in, named_in, schema_in, table_in};
ghost use Rattle.msl_checks.specs.msl_written.MeantAt.{meant_at};

use crate::msl_written::kinds::{column_kind, corresponds, is_enum, prop_kind};
use crate::msl_written::repeats::first_twice_written;
use crate::msl_written::rising::is_rising;
use crate::msl_written::writing::Writing;
use edm_types::{CondOn, Pair};
use emc_base::{Memory, Seq, put_found};
use groupings::Finder;
use layouts::{Fault, Rule, fault_here_if, first_at};
use msl_rules::RawPair;
use std::alloc::Global;

/// The pairs of a list, and what they stand for, which is looked up once.
#[derive(Drop)]
pub struct MeantPairs<'a> {
    /// Where their names are looked up.
    pub writing: &'a Writing<'a>,
    /// The pairs.
    pub pairs: &'a Seq<RawPair>,
    // What each stands for, where its property and its column are found.
    each: Seq<Option<Pair>>,
    ghost meant: { each ≡ map (meant_in writing.now) pairs.now },
}

impl<'a> MeantPairs<'a> {
    /// Those of a list. `Memory` comes where memory ran out.
    pub fn of(
        alloc: Global,
        writing: &'a Writing<'a>,
        pairs: &'a Seq<RawPair>,
    ) -> Result<MeantPairs<'a>, Memory>
        ensures writing { IfOk result (λ meant. meant.writing.now ≡ writing.now) }
        ensures pairs { IfOk result (λ meant. meant.pairs.now ≡ pairs.now) }
    {
        let each = meant_each(alloc, writing, pairs.as_slice())?;
        Ok(MeantPairs {
            writing,
            pairs,
            each,
        })
    }

    /// What those stand for of which both are found, in their order. `Memory` comes where memory ran out.
    pub fn found(&self, alloc: Global) -> Result<Seq<Pair>, Memory>
        ensures { IfOk result (λ found. found ≡ filter_map (meant_in self.now.writing.now) self.now.pairs.now) }
    {
        let mut found = Seq::empty(alloc);
        for meant in self.each.as_slice() {
            put_found(&mut found, *meant)?;
        }
        Ok(found)
    }

    /// The least of the pairs whose column doesn't hold what their property does (V29). `Memory` comes where memory ran out.
    pub fn first_unfit(&self, alloc: Global) -> Result<Option<Fault>, Memory>
        ensures { IfOk result (λ found. IsLeast fault_cmp (InList (codes "ScalarProperty") (IsUnfitFault (schema_in self.now.writing.now.between) (named_in self.now.writing.now) self.now.writing.now.table) self.now.pairs.now) found) }
    {
        let found = first_at(alloc, "ScalarProperty", &Unfit { meant: self }, self.pairs)?;
        Ok(found)
    }

    /// The least of the pairs that write an enumeration which tells another entity (V38). `Memory` comes where memory ran out.
    pub fn first_enum(&self, alloc: Global) -> Result<Option<Fault>, Memory>
        ensures { IfOk result (λ found. IsLeast fault_cmp (InList (codes "ScalarProperty") (IsEnumFault (schema_in self.now.writing.now.between) (named_in self.now.writing.now) self.now.writing.now.table) self.now.pairs.now) found) }
    {
        let search = ForeignEnums { meant: self };
        let found = first_at(alloc, "ScalarProperty", &search, self.pairs)?;
        Ok(found)
    }

    /// The least of the pairs whose property, or whose column, was written before in the list (V39). `Memory` comes where memory ran out.
    pub fn first_again(&self, alloc: Global) -> Result<Option<Fault>, Memory>
        ensures { IfOk result (λ found. IsLeast fault_cmp (InList (codes "ScalarProperty") (λ k pair inside. IsWrittenBefore self.now.pairs.now k pair × IsAt WrittenOnce [] inside) self.now.pairs.now) found) }
    {
        if is_rising(self.each.as_slice()) {
            return Ok(None);
        }
        first_twice_written(alloc, self.pairs)
    }

    // What the pair at a place stands for.
    fn meant_at(&self, place: usize) -> Option<Pair>
        ensures { result ≡ meant_at self.now.each place }
    {
        *self.each.get(place)?
    }

    // Whether the column of the pair at a place doesn't hold what its property does.
    fn is_unfit(&self, place: usize) -> bool
        ensures { IsTrue result ↔ MatchOption (meant_at self.now.each place) ⊥ (λ found. ¬ WritesToFitting (schema_in self.now.writing.now.between) (table_in self.now.writing.now) found) }
    {
        let Some(found) = self.meant_at(place) else {
            return false;
        };
        !is_fitting(self.writing, found)
    }

    // Whether the pair at a place writes an enumeration which tells another entity.
    fn is_foreign_enum(&self, place: usize) -> bool
        ensures { IsTrue result ↔ MatchOption (meant_at self.now.each place) ⊥ (λ found. ¬ WritesNoBarredEnum (schema_in self.now.writing.now.between) found) }
    {
        let Some(found) = self.meant_at(place) else {
            return false;
        };
        !writes_no_barred_enum(self.writing, found)
    }
}

// What each of these pairs stands for, where its property and its column are found.
fn meant_each(
    alloc: Global,
    writing: &Writing<'_>,
    pairs: &[RawPair],
) -> Result<Seq<Option<Pair>>, Memory>
    ensures { IfOk result (λ each. each ≡ map (meant_in writing.now) pairs.now) }
{
    let names = writing.found();
    let mut each = Seq::empty(alloc);
    for pair in pairs {
        let near = each.len();
        each.push(names.pair(pair, near))?;
    }
    Ok(each)
}

/// Searches for pairs whose column doesn't hold what their property does.
#[derive(Clone, Copy)]
struct Unfit<'a> {
    meant: &'a MeantPairs<'a>,
}

impl<'a> Finder<RawPair, Fault> for Unfit<'a> {
    ghost use Rattle.std.specs.Prelude.{[], MatchOption};
    ghost use Rattle.layouts.specs.declared.rule.Rule.TheVariants.{Corresponds};
    ghost use Rattle.layouts.specs.rule_places.Places.{IsAt};
    ghost use Rattle.round_trip.specs.soundness.mappings.Fragments.{WritesToFitting};
    ghost use Rattle.msl_checks.specs.msl_written.Within.{schema_in, table_in};
    ghost use Rattle.msl_checks.specs.msl_written.MeantAt.{meant_at};

    ghost wrong = { λ s k _ fault. MatchOption (meant_at s.meant.now.each k) ⊥ (λ found. ¬ WritesToFitting (schema_in s.meant.now.writing.now.between) (table_in s.meant.now.writing.now) found) × IsAt Corresponds [] fault };

    fn find(&self, alloc: Global, place: usize, _: &RawPair) -> Result<Option<Fault>, Memory> {
        let is_unfit = self.meant.is_unfit(place);
        let found = fault_here_if(alloc, is_unfit, Rule::Corresponds)?;
        Ok(found)
    }
}

// Whether the column holds what the property does; so it is where one of them has no kind.
fn is_fitting(writing: &Writing<'_>, pair: Pair) -> bool
    ensures { IsTrue result ↔ WritesToFitting (schema_in writing.now.between) (table_in writing.now) pair }
{
    let names = writing.between.names;
    let Some(property) = prop_kind(names.model, pair.prop) else {
        return true;
    };
    let Some(column) = column_kind(names.store, writing.table, pair.col) else {
        return true;
    };
    corresponds(property, column)
}

/// Searches for pairs that write an enumeration which tells another entity.
#[derive(Clone, Copy)]
struct ForeignEnums<'a> {
    meant: &'a MeantPairs<'a>,
}

impl<'a> Finder<RawPair, Fault> for ForeignEnums<'a> {
    ghost use Rattle.std.specs.Prelude.{[], MatchOption};
    ghost use Rattle.layouts.specs.declared.rule.Rule.TheVariants.{ForeignValue};
    ghost use Rattle.layouts.specs.rule_places.Places.{IsAt};
    ghost use Rattle.round_trip.specs.soundness.mappings.Joined.{WritesNoBarredEnum};
    ghost use Rattle.msl_checks.specs.msl_written.Within.{schema_in};
    ghost use Rattle.msl_checks.specs.msl_written.MeantAt.{meant_at};

    ghost wrong = { λ s k _ fault. MatchOption (meant_at s.meant.now.each k) ⊥ (λ found. ¬ WritesNoBarredEnum (schema_in s.meant.now.writing.now.between) found) × IsAt ForeignValue [] fault };

    fn find(&self, alloc: Global, place: usize, _: &RawPair) -> Result<Option<Fault>, Memory> {
        let is_foreign = self.meant.is_foreign_enum(place);
        let found = fault_here_if(alloc, is_foreign, Rule::ForeignValue)?;
        Ok(found)
    }
}

// Whether the property is no enumeration, or tells no other entity and isn't joined to what does.
fn writes_no_barred_enum(writing: &Writing<'_>, pair: Pair) -> bool
    ensures { IsTrue result ↔ WritesNoBarredEnum (schema_in writing.now.between) pair }
{
    let Some(kind) = prop_kind(writing.between.names.model, pair.prop) else {
        return true;
    };
    !is_enum(kind) || writing.is_free(CondOn::Prop(pair.prop))
}
