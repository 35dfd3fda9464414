ghost use Rattle.std.specs.Prelude.{◌≡◌, ◌≤◌, IfOk, drop, length};
ghost use Rattle.arrow_orders.specs.Orders.{EndWithin, TellsOrder};

use crate::walk::Walk;
use emc_base::{Memory, Seq};
use std::alloc::Global;

/// Places in an order, or a ring of them.
#[derive(Drop)]
pub enum Order {
    /// Each place once, behind all that it waits for.
    Line(Vec<usize>),
    /// Some places, each of which waits for the next, and the last for the first.
    Ring(Vec<usize>),
}

/// An order of places, of each of which is told for which it waits; or a ring, where there is none. The time is near linear in the places and in what is told.
/// `Memory` comes where memory ran out.
pub fn order_of(alloc: Global, ends: &[Seq<usize>]) -> Result<Order, Memory>
    requires { EndWithin ends.now }
    ensures { IfOk result (TellsOrder ends.now) }
{
    let mut walk = Walk::new(alloc, ends)?;
    for place in 0..ends.len() {
        if let Some(position) = walk.visit(ends, place)? {
            return Ok(Order::Ring(rest_of(alloc, walk.path.as_slice(), position)?));
        }
    }
    Ok(Order::Line(walk.line))
}

// The places of a path from a position on.
fn rest_of(alloc: Global, path: &[usize], position: usize) -> Result<Vec<usize>, Memory>
    requires { position ≤ length path.now }
    ensures { IfOk result (λ rest. rest.items ≡ drop position path.now) }
{
    let mut rest = Vec::new(alloc);
    rest.extend_from_slice(&path[position..])?;
    Ok(rest)
}
