ghost use Rattle.std.specs.Prelude.{◌≡◌, ℕ, List, IfOk, Some, refl};
ghost use Rattle.std.specs.Cmp.{eq_by_cmp_equiv, partial_equiv_from_equiv, partial_order_from_total};
ghost use Rattle.std.specs.Ordering.{as_partial_cmp, eq_by_cmp};
ghost use Rattle.entity_state.specs.breach_order.Founds.{found_cmp};
ghost use Rattle.entity_state.specs.breach_order.FoundOrder.{found_cmp_total};

use edm_types::Breach;
use emc_base::{Memory, Place, Seq};
use std::alloc::Global;
use std::cmp::Ordering;

/// A breach where it was found.
#[derive(Drop)]
pub struct Found {
    /// The number of its rule.
    pub rule: u8,
    /// What orders the places of one rule: the numbers by which the place is reached.
    pub spot: Seq<usize>,
    /// The place that is told.
    pub place: Place,
}

impl Found {
    /// A breach of a rule at a spot, which is told as a place. `Memory` comes where memory ran out.
    pub fn at(alloc: Global, rule: u8, spot: &[usize], place: Place) -> Result<Found, Memory>
        ensures { IfOk result (λ found. found ≡ record { rule = rule; spot = spot.now; place = place }) }
    {
        let spot = Seq::from_vec(Vec::from_slice(alloc, spot)?)?;
        Ok(Found { rule, spot, place })
    }

    /// What is told of it.
    pub fn breach(self) -> Breach
        ensures { result ≡ record { rule = self.rule; place = self.place } }
    {
        Breach {
            rule: self.rule,
            place: self.place,
        }
    }
}

fn compare(one: &Found, other: &Found) -> Ordering
    ensures { result ≡ found_cmp one.now other.now }
{
    let rules = one.rule.cmp(&other.rule);
    rules.then(one.spot.as_slice().cmp(other.spot.as_slice()))
}

impl PartialEq for Found {
    ghost eq = { eq_by_cmp found_cmp };

    ghost laws = { partial_equiv_from_equiv (eq_by_cmp_equiv found_cmp_total) };

    fn eq(&self, other: &Found) -> bool {
        compare(self, other).is_eq()
    }
}

impl Eq for Found {
    ghost laws = { eq_by_cmp_equiv found_cmp_total };
}

impl PartialOrd for Found {
    ghost partial_cmp = { as_partial_cmp found_cmp };

    ghost laws = { partial_order_from_total found_cmp_total };

    fn partial_cmp(&self, other: &Found) -> Option<Ordering> {
        Some(compare(self, other))
    }
}

/// The order of breaches: by the rule, and then by the spot. Two of one rule at one spot are alike, whatever their places.
impl Ord for Found {
    ghost cmp = { found_cmp };

    ghost total = { found_cmp_total };

    ghost matches_partial_cmp = { λ a b. refl };

    ghost matches_eq = { λ a b. refl };

    fn cmp(&self, other: &Found) -> Ordering {
        compare(self, other)
    }
}
