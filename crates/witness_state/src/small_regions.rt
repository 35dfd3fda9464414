//! The small states of entities of regions: the entities with their partners, and what these need.

mod asking;
mod gathering;
mod hosts;
mod partners;
mod states;

pub use asking::{add_keys, add_principals};
pub use gathering::{Gathered, gather};
pub use hosts::{Hosting, linked_hosts};
pub use states::{leaving_states, pair_of_states, region_state};
