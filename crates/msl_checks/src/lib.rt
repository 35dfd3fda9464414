//! The least fault of what fragments and the ends of links write and compare.
#![tactic(auto)]

mod barred_members;
mod msl_fragment_rules;
mod msl_link_rules;
pub mod msl_written;

pub use barred_members::Barred;
pub use msl_fragment_rules::first_fragment_fault;
pub use msl_link_rules::first_link_fault;
pub use msl_written::{Between, MeantPairs, Writing, first_condition_fault, first_twice_written};
