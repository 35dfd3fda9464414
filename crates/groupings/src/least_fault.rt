//! The least of what is wrong: found item by item over lists, and joined from several searches.

mod finder;
mod least;

pub use finder::{Finder, first_among};
pub use least::{earlier, earlier_of};
