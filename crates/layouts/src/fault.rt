ghost use Rattle.std.specs.Prelude.{◌≡◌, ◌∷◌, [], IfOk, refl};
ghost use Rattle.std.specs.Cmp.{eq_by_cmp_equiv, partial_equiv_from_equiv, partial_order_from_total};
ghost use Rattle.std.specs.Ordering.{as_partial_cmp, eq_by_cmp};
ghost use Rattle.layouts.specs.Faults.{fault_cmp};
ghost use Rattle.layouts.specs.FaultOrder.{fault_cmp_total};

use crate::path::Path;
use crate::rule::Rule;
use emc_base::Memory;
use json_form::Step;
use std::alloc::Global;
use std::cmp::Ordering;

/// A broken rule and a place at which it is broken.
#[derive(Drop)]
pub struct Fault {
    /// The rule.
    pub rule: Rule,
    /// The place.
    pub place: Path,
}

impl Fault {
    /// The rule is broken at the node itself.
    pub fn here(alloc: Global, rule: Rule) -> Fault
        ensures rule { result.rule ≡ rule }
        ensures place { result.place ≡ [] }
    {
        Fault {
            rule,
            place: Path::here(alloc),
        }
    }

    /// The same fault, seen from the node that this step leads from.
    pub fn after(self, step: Step) -> Result<Fault, Memory>
        ensures { IfOk result (λ fault. fault ≡ record { rule = self.rule; place = step ∷ self.place }) }
    {
        let place = self.place.after(step)?;
        Ok(Fault {
            rule: self.rule,
            place,
        })
    }
}

fn compare(one: &Fault, other: &Fault) -> Ordering
    ensures { result ≡ fault_cmp one.now other.now }
{
    let rules = one.rule.number().cmp(&other.rule.number());
    rules.then(one.place.as_slice().cmp(other.place.as_slice()))
}

impl PartialEq for Fault {
    ghost eq = { eq_by_cmp fault_cmp };

    ghost laws = { partial_equiv_from_equiv (eq_by_cmp_equiv fault_cmp_total) };

    fn eq(&self, other: &Fault) -> bool {
        compare(self, other).is_eq()
    }
}

impl Eq for Fault {
    ghost laws = { eq_by_cmp_equiv fault_cmp_total };
}

impl PartialOrd for Fault {
    ghost partial_cmp = { as_partial_cmp fault_cmp };

    ghost laws = { partial_order_from_total fault_cmp_total };

    fn partial_cmp(&self, other: &Fault) -> Option<Ordering> {
        Some(compare(self, other))
    }
}

/// The order of faults: by the number of the rule, and then by the place.
impl Ord for Fault {
    ghost cmp = { fault_cmp };

    ghost total = { fault_cmp_total };

    ghost matches_partial_cmp = { λ a b. refl };

    ghost matches_eq = { λ a b. refl };

    fn cmp(&self, other: &Fault) -> Ordering {
        compare(self, other)
    }
}
