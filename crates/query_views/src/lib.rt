//! The query views of a mapping: from tables to the entities and links that they tell, one by one or as a state.
#![tactic(auto)]

mod entity_at;
mod fault;
mod lending;
mod links;
mod loaded;
mod making;
mod state_of;
mod views;

pub use fault::{EntityFault, Found, StateFault};
pub use loaded::Loaded;
pub use views::QueryViews;
