ghost use Rattle.std.specs.Prelude.{◌≡◌, ◌++◌, length, reverse, IfOk};
ghost use Rattle.graphs.specs.base_chains.Chains.{base_at, StaysWithin};
ghost use Rattle.graphs.specs.base_chains.Walks.{IsWalk, earlier};

use crate::base_chains::climbing::{climb, first_on_cycle};
use emc_base::Memory;
use std::alloc::Global;

/// What a walk along all bases finds.
#[derive(Drop)]
pub enum Walk {
    /// Each place once, after its base.
    Order(Vec<usize>),
    /// The first place that stands above itself.
    Cycle(usize),
}

/// The order of types in which each follows its base, or the first type that stands above itself. The time is linear in
/// their number. `Memory` comes where memory ran out.
pub fn walk_bases(alloc: Global, bases: &[Option<usize>]) -> Result<Walk, Memory>
    requires within { StaysWithin (base_at bases.now) (length bases.now) }
    ensures { IfOk result (IsWalk (base_at bases.now) (length bases.now)) }
{
    let mut seen = vec![in alloc; false; bases.len()]?;
    let mut order = Vec::new(alloc);
    let mut first = None;
    for place in 0..bases.len() {
        let way = climb(alloc, bases, place, &mut seen)?;
        first = earlier(first, first_on_cycle(way.path.as_slice(), way.exit));
        append_reversed(&mut order, way.path)?;
    }
    Ok(match first {
        Some(place) => Walk::Cycle(place),
        None => Walk::Order(order),
    })
}

// Puts a path behind an order, its last place first.
fn append_reversed(order: &mut Vec<usize>, path: Vec<usize>) -> Result<(), Memory>
    ensures { IfOk result (λ _. order.new.items ≡ order.old.items ++ reverse path.items) }
{
    let mut path = path;
    path.as_mut_slice().reverse();
    order.extend_from_slice(path.as_slice())?;
    Ok(())
}

// The lesser of two places, as far as there are any.
fn earlier(one: Option<usize>, other: Option<usize>) -> Option<usize>
    ensures { result ≡ earlier one other }
{
    match (one, other) {
        (Some(one), Some(other)) => Some(one.min(other)),
        (Some(one), None) => Some(one),
        (None, other) => other,
    }
}
