//! The properties and columns that tell another entity, or are joined to one that does.

mod barred;

pub use barred::Barred;
