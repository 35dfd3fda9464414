//! The regions of a set: counted, listed, found for an entity, and the first limit that a schema passes.
#![tactic(auto)]

mod limit_laws;
mod mapping_limits;
pub mod region_lists;
mod region_search;
pub mod set_regions;

pub use limit_laws::one_limit;
pub use mapping_limits::first_limit;
pub use region_lists::{
    RegionsFault, atoms_at, constants_of, count, count_of_type, derives, is_listed, is_tested,
    props_of, regions,
};
pub use region_search::{find_region, holds, region_of, regions_stand_in_order};
pub use set_regions::regions_of_sets;
