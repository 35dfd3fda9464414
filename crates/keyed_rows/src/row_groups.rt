//! Rows grouped by what they hold in some columns, in the order of these cells.

mod groups;
mod lending;

pub use groups::{KeyGroup, key_groups};
pub use lending::lent_cells;
