ghost use Rattle.std.specs.Prelude.{◌↔◌, All, IsTrue};
ghost use Rattle.graphs.specs.arrow_cycles.Arrows.{IsWithin, StayWithin};

use crate::arrow_cycles::arrow::Arrow;

/// Whether each arrow leads between two of so many places, as [`first_on_cycle`](crate::arrow_cycles::first_on_cycle) wants it.
pub fn stay_within(arrows: &[Option<Arrow>], count: usize) -> bool
    ensures { IsTrue result ↔ StayWithin count arrows.now }
{
    are_within(arrows, count)
}

// Whether so it is item by item.
fn are_within(arrows: &[Option<Arrow>], count: usize) -> bool
    ensures { IsTrue result ↔ All (IsWithin count) arrows.now }
{
    arrows.iter().all(|arrow| arrow.is_none_or(|arrow| arrow.from < count && arrow.to < count))
}
