//! The first row, by table and key, in which two tables differ, but for what free cells hold.

mod alike;
mod comparing;
mod copies;
mod differences;
mod laws;
mod sides;

pub use differences::{Difference, first_difference};
pub use laws::same_tables_have_no_difference;
