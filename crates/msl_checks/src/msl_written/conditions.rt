ghost use Rattle.std.specs.Prelude.{◌≡◌, ◌↔◌, ◌⊎◌, codes, IfOk, IsTrue, MatchOption, Some};
ghost use Rattle.std.specs.Option.{is_some};
ghost use Rattle.groupings.specs.least_fault.Least.{IsLeast};
ghost use Rattle.layouts.specs.Faults.{fault_cmp};
ghost use Rattle.layouts.specs.rule_places.Places.{InList};
ghost use Rattle.msl_rules.specs.condition_values.Spelled.{spelled};
ghost use Rattle.msl_rules.specs.FragmentRules.{IsCondFault, IsIllFormed, IsOfKey};
ghost use Rattle.msl_checks.specs.msl_written.Within.{ComparesBarred, GivesNoValue, named_in, schema_in};
ghost use Rattle.msl_checks.specs.msl_written.OnConditions.{IsOn};

use crate::msl_written::writing::Writing;
use edm_types::CondOn;
use emc_base::{Kind, Memory, PropId, Seq, Txt};
use groupings::{Finder, earlier_of};
use layouts::{Fault, Rule, fault_here_if, fault_if, first_at};
use msl_rules::{RawCond, spelled, value_of};
use std::alloc::Global;

/// Searches conditions.
#[derive(Clone, Copy)]
struct Conditions<'a> {
    writing: &'a Writing<'a>,
    // The properties of the key.
    key: &'a [PropId],
}

impl<'a> Finder<RawCond, Fault> for Conditions<'a> {
    ghost use Rattle.msl_rules.specs.FragmentRules.{IsCondFault};
    ghost use Rattle.msl_checks.specs.msl_written.Within.{named_in, schema_in};

    ghost wrong = { λ s. IsCondFault (schema_in s.writing.now.between) (named_in s.writing.now) s.writing.now.table s.key.now };

    fn find(&self, alloc: Global, _: usize, item: &RawCond) -> Result<Option<Fault>, Memory> {
        let form = fault_here_if(alloc, is_ill_formed(item), Rule::ConditionForm);
        let Some(what) = self.writing.found().condition_on(item) else {
            return form;
        };
        let on = self.first_on(alloc, what, item);
        earlier_of(form, on)
    }
}

impl<'a> Conditions<'a> {
    // The least of what is wrong with a condition on what is known (V34, V35 and V38).
    fn first_on(&self, alloc: Global, what: CondOn, cond: &RawCond) -> Result<Option<Fault>, Memory>
        ensures { IfOk result (λ found. IsLeast fault_cmp (IsOn self.now.writing.now self.now.key.now cond.now (Some what)) found) }
    {
        let has_no_value = has_no_value(alloc, self.writing, what, cond)?;
        let is_foreign = is_foreign(alloc, self.writing, what, cond)?;
        let is_of_key = is_of_key(self.writing, self.key, what);
        let value = fault_if(alloc, has_no_value, Rule::ConditionValue, "Value");
        let key = fault_here_if(alloc, is_of_key, Rule::KeyCondition);
        let foreign = fault_here_if(alloc, is_foreign, Rule::ForeignValue);
        earlier_of(value, earlier_of(key, foreign))
    }
}

// Whether a condition names not just one of a property and a column, or asks not just one of a value and of null.
fn is_ill_formed(cond: &RawCond) -> bool
    ensures { IsTrue result ↔ IsIllFormed cond.now }
{
    cond.prop.is_some() == cond.col.is_some() || cond.value.is_some() == cond.is_null.is_some()
}

// Whether the text of a condition gives no value in the domain of what the condition is on.
fn has_no_value(
    alloc: Global,
    writing: &Writing<'_>,
    what: CondOn,
    cond: &RawCond,
) -> Result<bool, Memory>
    ensures { IfOk result (λ yes. IsTrue yes ↔ MatchOption cond.now.value ⊥ (λ text. GivesNoValue writing.now text what)) }
{
    let Some(text) = &cond.value else {
        return Ok(false);
    };
    let Some(kind) = writing.kind_of(what) else {
        return Ok(false);
    };
    let value = value_of(alloc, kind, text)?;
    Ok(value.is_none())
}

// Whether a condition is on one of these properties, or on a column of the primary key.
fn is_of_key(writing: &Writing<'_>, key: &[PropId], what: CondOn) -> bool
    ensures { IsTrue result ↔ IsOfKey (schema_in writing.now.between) (named_in writing.now) writing.now.table key.now what }
{
    match what {
        CondOn::Prop(prop) => key.contains(&prop),
        CondOn::Col(col) => writing.key_columns().contains(&col),
    }
}

// Whether a condition compares a value with what tells another entity.
fn is_foreign(
    alloc: Global,
    writing: &Writing<'_>,
    what: CondOn,
    cond: &RawCond,
) -> Result<bool, Memory>
    ensures { IfOk result (λ yes. IsTrue yes ↔ ComparesBarred writing.now what cond.now) }
{
    let (Some(text), None) = (&cond.value, cond.is_null) else {
        return Ok(false);
    };
    let Some(kind) = writing.kind_of(what) else {
        return Ok(false);
    };
    if !gives_value(alloc, kind, text)? {
        return Ok(false);
    }
    Ok(!writing.is_free(what))
}

// Whether a text gives a value for a kind, in its domain or not.
fn gives_value(alloc: Global, kind: &Kind, text: &Txt) -> Result<bool, Memory>
    ensures { IfOk result (λ yes. yes ≡ is_some (spelled kind.now text.now)) }
{
    let value = spelled(alloc, kind, text)?;
    Ok(value.is_some())
}

/// The least of what is wrong with conditions (V33 to V35 and V38), where these are the properties of the key. `Memory` comes where memory ran
/// out.
pub fn first_condition_fault(
    alloc: Global,
    writing: &Writing<'_>,
    key: &[PropId],
    conds: &Seq<RawCond>,
) -> Result<Option<Fault>, Memory>
    ensures { IfOk result (λ found. IsLeast fault_cmp (InList (codes "Condition") (IsCondFault (schema_in writing.now.between) (named_in writing.now) writing.now.table key.now) conds.now) found) }
{
    let found = first_at(alloc, "Condition", &Conditions { writing, key }, conds)?;
    Ok(found)
}
