//! What a mapping picks: types of its sets, properties that those types share, and the association of each association set.

mod climbs;
mod derived;
mod link;
mod shared;
mod type_names;

pub use climbs::allow_climbs;
pub use link::first_other_association;
pub use type_names::first_type_name_fault;
