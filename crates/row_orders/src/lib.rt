//! Rows before and afterwards, what the change of one waits for, and the orders in which the changes keep all keys.
#![tactic(auto)]

mod alteration;
mod laws;

pub use alteration::Alteration;
pub use laws::orders_of_alterations_are_orders_of_changes;
