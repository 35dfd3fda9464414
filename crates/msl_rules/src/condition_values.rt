//! The value that the text of a mapping's condition gives for a property or a column of some kind.

mod numbers;
mod values;

pub use values::{spelled, value_of};
