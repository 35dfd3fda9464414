//! Names that are given in lists, and the place where each is given first.

mod fronts;
mod hashes;
mod named;
mod once;
mod places;

pub use fronts::rest_after;
pub use hashes::NameHashes;
pub use named::Named;
pub use once::{are_apart, holds_each_once};
pub use places::{Places, first_places, places_of};
