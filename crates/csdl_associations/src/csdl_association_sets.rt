//! The rules of CSDL on entity sets, association sets and what stands at their ends.

mod concrete;
mod constraints;
mod set_arrows;
mod set_ends;
mod set_rules;

pub use set_rules::first_set_fault;
