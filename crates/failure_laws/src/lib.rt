//! Failures of links, where each failing state fails, and the small states that are shown of a conflict.
#![tactic(auto)]

mod failure_places;
mod link_laws;
mod witness_laws;

pub use failure_places::{a_mapping_round_trips_place_by_place, each_failure_is_somewhere};
pub use link_laws::{link_conflicts_are_exact, small_links_serve};
pub use witness_laws::{facts_are_computed, witnesses_fail};
