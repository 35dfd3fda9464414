//! Rows of tables by their keys: grouped, those of a set, and the first row in which tables differ but for free cells.
#![tactic(auto)]

pub mod row_differences;
mod row_groups;
mod set_rows;

pub use row_differences::{Difference, first_difference, same_tables_have_no_difference};
pub use row_groups::{KeyGroup, key_groups, lent_cells};
pub use set_rows::{rows_at, rows_by_key};
