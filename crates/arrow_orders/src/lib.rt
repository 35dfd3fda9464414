//! Places that wait for others: an order in which each comes behind those that it waits for, or a ring of places each of which waits for the next.
#![tactic(auto)]

mod order;
mod walk;

pub use order::{Order, order_of};
