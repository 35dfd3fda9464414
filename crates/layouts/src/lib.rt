//! Layouts of JSON documents: which members an object has and of which form each is; the least fault of a document against its layout, at its first place; and how faults are joined and told.
#![tactic(auto)]

mod fault;
mod form;
mod leaf;
mod missing;
mod names;
mod path;
mod rule;
pub mod rule_places;
pub mod told_rules;
mod walk;

pub use fault::Fault;
pub use form::{Entry, Form, Leaf, Shape};
pub use names::{entry_of, rows_of};
pub use path::Path;
pub use rule::Rule;
pub use rule_places::{
    Again, behind, behind_member, fault_at, fault_at_item, fault_here_if, fault_if, fault_on_item,
    first_at, first_in_list, first_twice,
};
pub use told_rules::{Stop, told};
pub use walk::first_fault;
