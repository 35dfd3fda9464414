//! The regions of a set, counted and listed.

mod atoms;
mod base_types;
mod choices;
mod counting;
mod flags;
mod listing;

pub use atoms::{atoms_at, constants_of, is_tested};
pub use base_types::{derives, props_of};
pub use counting::{count, count_of_type, is_listed};
pub use listing::{RegionsFault, regions};
