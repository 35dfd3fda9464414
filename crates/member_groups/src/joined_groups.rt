//! The groups of joined properties and columns of a mapping.

mod groups;
mod labels;
mod links;
mod places;

pub use groups::Groups;
pub use labels::{Label, column_label, prop_label};
