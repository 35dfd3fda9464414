//! The exact tests of four of the ways in which legal states fail: over the regions of a set and their patterns.
#![tactic(auto)]

mod clashes;
mod disagreements;
mod first;
mod lent;
mod links;
mod nulls;
mod same_conflicts;
mod shown;

pub use first::first_conflict;
pub use links::first_link_conflict;
pub use same_conflicts::first_same;
