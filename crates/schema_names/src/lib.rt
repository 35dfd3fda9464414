//! The names that documents over a schema use, looked up in its entity model and its store.
#![tactic(auto)]

mod columns;
mod ends;
mod lent_names;
mod local_names;
mod names;
mod own_props;
mod tables;

pub use ends::WhichEnd;
pub use lent_names::places_by;
pub use local_names::local_name;
pub use names::SchemaNames;
