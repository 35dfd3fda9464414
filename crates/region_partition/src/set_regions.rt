//! The regions of all entity sets.

mod all_regions;

pub use all_regions::regions_of_sets;
