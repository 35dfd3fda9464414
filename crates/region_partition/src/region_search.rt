//! The region of a set that holds an entity with the links that it hosts: a search of the set's regions by their order.

mod atoms;
mod flags;
mod laws;
mod search;
mod standing;

pub use laws::regions_stand_in_order;
pub use search::{find_region, region_of};
pub use standing::holds;
