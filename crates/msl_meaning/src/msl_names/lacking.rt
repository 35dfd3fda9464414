ghost use Rattle.std.specs.Prelude.{◌≡◌, ◌∷◌, [], None, IfOk};
ghost use Rattle.json_form.specs.declared.pointer.Step.TheVariants.{Member};
ghost use Rattle.groupings.specs.least_fault.Least.{IsLeast};
ghost use Rattle.layouts.specs.declared.rule.Rule.TheVariants.{Resolves};
ghost use Rattle.layouts.specs.Faults.{fault_cmp};
ghost use Rattle.layouts.specs.rule_places.Places.{IsAt};

use emc_base::Memory;
use layouts::{Fault, Rule, fault_if};
use std::alloc::Global;

/// This member names nothing, where nothing was found.
pub fn first_of_none<T: Copy>(
    alloc: Global,
    named: Option<T>,
    member: &str,
) -> Result<Option<Fault>, Memory>
    ensures { IfOk result (λ found. IsLeast fault_cmp (λ fault. (named ≡ None) × IsAt Resolves (Member member.now ∷ []) fault) found) }
{
    let found = fault_if(alloc, named.is_none(), Rule::Resolves, member)?;
    Ok(found)
}
