//! Changes of rows, one after the other: what they leave of tables, when they lead from one to another, and in which orders every key is kept.
#![tactic(auto)]

mod change;
mod laws;

pub use change::RowChange;
pub use laws::{
    a_cycle_has_no_order, orders_keep_all_keys, row_changes_lead_to_the_new_tables,
    touched_rows_are_enough,
};
