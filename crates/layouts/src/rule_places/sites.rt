ghost use Rattle.std.specs.Prelude.{◌≡◌, ◌∷◌, [], IfOk, IsTrue};
ghost use Rattle.groupings.specs.least_fault.Least.{IsLeast};
ghost use Rattle.json_form.specs.declared.pointer.Step.TheVariants.{Member};
ghost use Rattle.layouts.specs.Faults.{fault_cmp};
ghost use Rattle.layouts.specs.rule_places.Places.{IsAt};

use crate::{Fault, Rule};
use emc_base::{Memory, Txt};
use json_form::Step;
use std::alloc::Global;

/// The rule is broken at this member of the object.
pub fn fault_at(alloc: Global, rule: Rule, member: &str) -> Result<Fault, Memory>
    ensures { IfOk result (λ fault. fault ≡ record { rule = rule; place = Member member.now ∷ [] }) }
{
    let fault = Fault::here(alloc, rule);
    let seen = fault.after(Step::Member(Txt::of(alloc, member)?))?;
    Ok(seen)
}

/// The rule is broken at this member of the object, where it is broken.
pub fn fault_if(
    alloc: Global,
    is_broken: bool,
    rule: Rule,
    member: &str,
) -> Result<Option<Fault>, Memory>
    ensures { IfOk result (λ found. IsLeast fault_cmp (λ fault. IsTrue is_broken × IsAt rule (Member member.now ∷ []) fault) found) }
{
    if !is_broken {
        return Ok(None);
    }
    let fault = fault_at(alloc, rule, member)?;
    Ok(Some(fault))
}

/// The rule is broken at the node itself, where it is broken.
pub fn fault_here_if(alloc: Global, is_broken: bool, rule: Rule) -> Result<Option<Fault>, Memory>
    ensures { IfOk result (λ found. IsLeast fault_cmp (λ fault. IsTrue is_broken × IsAt rule [] fault) found) }
{
    if !is_broken {
        return Ok(None);
    }
    Ok(Some(Fault::here(alloc, rule)))
}
