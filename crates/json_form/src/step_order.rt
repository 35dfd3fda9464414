ghost use Rattle.std.specs.Prelude.{◌≡◌, refl};
ghost use Rattle.std.specs.Cmp.{eq_by_cmp_equiv, partial_equiv_from_equiv, partial_order_from_total};
ghost use Rattle.std.specs.Ordering.{as_partial_cmp, eq_by_cmp};
ghost use Rattle.json_form.specs.PlaceOrder.{step_cmp_total};
ghost use Rattle.json_form.specs.Pointers.{step_cmp};

use crate::pointer::Step;
use std::cmp::Ordering;

// Members before items, members by the bytes of their names, items by their numbers.
fn compare(one: &Step, other: &Step) -> Ordering
    ensures { result ≡ step_cmp one.now other.now }
{
    match (one, other) {
        (Step::Member(one), Step::Member(other)) => one.as_str().cmp(other.as_str()),
        (Step::Item(one), Step::Item(other)) => one.cmp(other),
        (Step::Member(_), Step::Item(_)) => Ordering::Less,
        (Step::Item(_), Step::Member(_)) => Ordering::Greater,
    }
}

impl PartialEq for Step {
    ghost eq = { eq_by_cmp step_cmp };

    ghost laws = { partial_equiv_from_equiv (eq_by_cmp_equiv step_cmp_total) };

    fn eq(&self, other: &Step) -> bool {
        compare(self, other).is_eq()
    }
}

impl Eq for Step {
    ghost laws = { eq_by_cmp_equiv step_cmp_total };
}

impl PartialOrd for Step {
    ghost partial_cmp = { as_partial_cmp step_cmp };

    ghost laws = { partial_order_from_total step_cmp_total };

    fn partial_cmp(&self, other: &Step) -> Option<Ordering> {
        Some(compare(self, other))
    }
}

/// The order of places, step by step: members before items, members by the bytes of their names, items by their numbers.
impl Ord for Step {
    ghost cmp = { step_cmp };

    ghost total = { step_cmp_total };

    ghost matches_partial_cmp = { λ a b. refl };

    ghost matches_eq = { λ a b. refl };

    fn cmp(&self, other: &Step) -> Ordering {
        compare(self, other)
    }
}
