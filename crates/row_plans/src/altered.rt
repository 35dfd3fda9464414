//! The rows that differ between two tables.

mod comparing;
mod sides;
mod tables;

pub use sides::{Side, SidedRow, row_groups, row_of};
pub(crate) use tables::alterations_of;
