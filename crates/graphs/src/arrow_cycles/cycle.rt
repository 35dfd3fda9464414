ghost use Rattle.std.specs.Prelude.{◌≡◌, ◌↔◌, ℕ, IfOk, IsTrue, Option};
ghost use Rattle.emc_base.specs.Lists.{At};
ghost use Rattle.graphs.specs.base_chains.Walks.{IsFirst};
ghost use Rattle.graphs.specs.arrow_cycles.Arrows.{IsOnCycle, StayWithin};
ghost use Rattle.graphs.specs.arrow_cycles.Numbers.{IsInside, IsInsideAt, number_at};

use crate::arrow_cycles::arrow::{Arrow, ends_by_place};
use crate::arrow_cycles::components::components;
use crate::arrow_cycles::search::Mark;
use emc_base::Memory;
use std::alloc::Global;

/// The first place of the list whose arrow lies on a cycle: its end is its beginning, or leads back to it. `None` where
/// no arrow does. The time is linear in the arrows and the places. `Memory` comes where memory ran out.
pub fn first_on_cycle(
    alloc: Global,
    arrows: &[Option<Arrow>],
    count: usize,
) -> Result<Option<usize>, Memory>
    requires within { StayWithin count arrows.now }
    ensures first { IfOk result (IsFirst (IsOnCycle arrows.now)) }
{
    let ends = ends_by_place(alloc, arrows, count)?;
    let marks = components(alloc, ends.as_slice())?;
    Ok(first_inside(marks.as_slice(), arrows))
}

// The first place of the list whose arrow leads from a component to itself.
fn first_inside(marks: &[Mark], arrows: &[Option<Arrow>]) -> Option<usize>
    ensures { IsFirst (IsInsideAt marks.now arrows.now) result }
{
    for (place, arrow) in arrows.iter().enumerate() {
        if is_inside(marks, *arrow) {
            return Some(place);
        }
    }
    None
}

// Whether there is an arrow, and its two ends have one number.
fn is_inside(marks: &[Mark], arrow: Option<Arrow>) -> bool
    ensures { IsTrue result ↔ IsInside marks.now arrow }
{
    let Some(arrow) = arrow else {
        return false;
    };
    number_of(marks, arrow.from) == number_of(marks, arrow.to)
}

// The number of a place's component.
fn number_of(marks: &[Mark], place: usize) -> Option<usize>
    ensures { result ≡ number_at marks.now place }
{
    match marks.get(place) {
        Some(Mark::Closed(number)) => Some(*number),
        _ => None,
    }
}
