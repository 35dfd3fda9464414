//! The changes of rows between two tables, in an order in which each of them keeps all keys, or a cycle of them.
#![tactic(auto)]

mod altered;
mod listed;
mod plan;
mod planning;
mod waiting;

pub use altered::{Side, SidedRow, row_groups, row_of};
pub use plan::RowPlan;
pub use planning::plan_rows;
