//! The cells of a mapping: whom tables belong to, where links stand, which columns are free, and the groups of properties and columns.
#![tactic(auto)]

mod cells;
mod host_links;
mod hosted;
mod laws;
mod limits;
mod parts;

pub use cells::Cells;
pub use host_links::HostLinks;
pub use hosted::hosted_links;
pub use laws::{hosted_links_are_those_of_the_mapping, parts_cover_their_model_and_store};
pub use limits::is_within_limits;
pub use parts::Parts;
pub use table_owners::{LinkPlace, Owner};
