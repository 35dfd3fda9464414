ghost use Rattle.std.specs.Prelude.{◌≡◌, refl};
ghost use Rattle.std.specs.Cmp.{eq_by_cmp_equiv, partial_equiv_from_equiv, partial_order_from_total};
ghost use Rattle.std.specs.Ordering.{as_partial_cmp, eq_by_cmp};
ghost use Rattle.data_documents.specs.shape_faults.PlaceOrder.{place_cmp_total, step_cmp_total};
ghost use Rattle.data_documents.specs.shape_faults.Places.{place_cmp, sort_of, step_cmp};

use crate::shape_faults::place::{ShapePlace, ShapeStep};
use std::cmp::Ordering;

// Members, items, missing members.
fn compare(one: &ShapeStep, other: &ShapeStep) -> Ordering
    ensures { result ≡ step_cmp one.now other.now }
{
    match (one, other) {
        (ShapeStep::Member(one), ShapeStep::Member(other)) => one.as_str().cmp(other.as_str()),
        (ShapeStep::Item(one), ShapeStep::Item(other)) => one.cmp(other),
        (ShapeStep::Missing(rank, name), ShapeStep::Missing(other, named)) => {
            rank.cmp(other).then(name.as_str().cmp(named.as_str()))
        }
        _ => sort_of(one).cmp(&sort_of(other)),
    }
}

// Where steps of its sort stand among the others.
fn sort_of(step: &ShapeStep) -> u8
    ensures { result ≡ sort_of step.now }
{
    match step {
        ShapeStep::Member(_) => 0,
        ShapeStep::Item(_) => 1,
        ShapeStep::Missing(_, _) => 2,
    }
}

impl PartialEq for ShapeStep {
    ghost eq = { eq_by_cmp step_cmp };

    ghost laws = { partial_equiv_from_equiv (eq_by_cmp_equiv step_cmp_total) };

    fn eq(&self, other: &ShapeStep) -> bool {
        compare(self, other).is_eq()
    }
}

impl Eq for ShapeStep {
    ghost laws = { eq_by_cmp_equiv step_cmp_total };
}

impl PartialOrd for ShapeStep {
    ghost partial_cmp = { as_partial_cmp step_cmp };

    ghost laws = { partial_order_from_total step_cmp_total };

    fn partial_cmp(&self, other: &ShapeStep) -> Option<Ordering> {
        Some(compare(self, other))
    }
}

/// The order of steps from one node: members by the bytes of their names, items by their numbers, missing members by their ranks.
impl Ord for ShapeStep {
    ghost cmp = { step_cmp };

    ghost total = { step_cmp_total };

    ghost matches_partial_cmp = { λ a b. refl };

    ghost matches_eq = { λ a b. refl };

    fn cmp(&self, other: &ShapeStep) -> Ordering {
        compare(self, other)
    }
}

fn compare_places(one: &ShapePlace, other: &ShapePlace) -> Ordering
    ensures { result ≡ place_cmp one.now other.now }
{
    one.as_slice().cmp(other.as_slice())
}

impl PartialEq for ShapePlace {
    ghost eq = { eq_by_cmp place_cmp };

    ghost laws = { partial_equiv_from_equiv (eq_by_cmp_equiv place_cmp_total) };

    fn eq(&self, other: &ShapePlace) -> bool {
        compare_places(self, other).is_eq()
    }
}

impl Eq for ShapePlace {
    ghost laws = { eq_by_cmp_equiv place_cmp_total };
}

impl PartialOrd for ShapePlace {
    ghost partial_cmp = { as_partial_cmp place_cmp };

    ghost laws = { partial_order_from_total place_cmp_total };

    fn partial_cmp(&self, other: &ShapePlace) -> Option<Ordering> {
        Some(compare_places(self, other))
    }
}

/// The order of places, step by step; a place comes before the places inside it.
impl Ord for ShapePlace {
    ghost cmp = { place_cmp };

    ghost total = { place_cmp_total };

    ghost matches_partial_cmp = { λ a b. refl };

    ghost matches_eq = { λ a b. refl };

    fn cmp(&self, other: &ShapePlace) -> Ordering {
        compare_places(self, other)
    }
}
