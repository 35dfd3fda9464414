//! The limits of a mapping: the first that is passed.

mod by_cells;
mod documents;
mod first;
mod passed;

pub use first::first_limit;
