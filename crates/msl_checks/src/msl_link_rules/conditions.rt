ghost use Rattle.std.specs.Prelude.{codes, IfOk};
ghost use Rattle.groupings.specs.least_fault.Least.{IsLeast};
ghost use Rattle.layouts.specs.Faults.{fault_cmp};
ghost use Rattle.layouts.specs.rule_places.Places.{InList};
ghost use Rattle.msl_rules.specs.LinkRules.{IsLinkCondFault};
ghost use Rattle.msl_checks.specs.msl_written.Within.{schema_in};

use crate::msl_written::{Between, Writing, first_condition_fault};
use emc_base::{Memory, Seq};
use groupings::{Finder, earlier};
use layouts::{Fault, Rule, fault_here_if, first_at};
use msl_rules::RawCond;
use std::alloc::Global;

/// Searches for conditions that name a property.
#[derive(Clone, Copy)]
struct Properties {}

impl Finder<RawCond, Fault> for Properties {
    ghost use Rattle.std.specs.Prelude.{[], IsSome};
    ghost use Rattle.layouts.specs.declared.rule.Rule.TheVariants.{ConditionForm};
    ghost use Rattle.layouts.specs.rule_places.Places.{IsAt};

    ghost wrong = { λ _ _ cond inside. IsSome cond.prop × IsAt ConditionForm [] inside };

    fn find(&self, alloc: Global, _: usize, item: &RawCond) -> Result<Option<Fault>, Memory> {
        let found = fault_here_if(alloc, item.prop.is_some(), Rule::ConditionForm)?;
        Ok(found)
    }
}

/// The least of what is wrong with the conditions in the mapping of an association set to the table at a place (V33 to V35 and V38).
/// `Memory` comes where memory ran out.
pub fn first_link_condition_fault(
    alloc: Global,
    between: &Between<'_>,
    table: usize,
    conds: &Seq<RawCond>,
) -> Result<Option<Fault>, Memory>
    ensures { IfOk result (λ found. IsLeast fault_cmp (InList (codes "Condition") (IsLinkCondFault (schema_in between.now) table) conds.now) found) }
{
    let writing = Writing {
        between: *between,
        ty: None,
        table,
    };
    let written = first_condition_fault(alloc, &writing, &[], conds)?;
    let properties = first_at(alloc, "Condition", &Properties {}, conds)?;
    Ok(earlier(written, properties))
}
