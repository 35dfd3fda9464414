//! Forests of base types and arrows between places: orders with bases first, roots, sums and marks along chains, and the first arrow on a cycle.
#![tactic(auto)]

pub mod arrow_cycles;
pub mod base_chains;

pub use arrow_cycles::{Arrow, first_on_cycle};
pub use base_chains::{
    Ancestry, Walk, chain_roots, chain_sizes, marked_below, places_above, walk_bases,
};
