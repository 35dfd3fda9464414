//! The rows of the tables that an entity set owns, by the keys of its entities.

mod at_key;
mod by_key;
mod lookups;
mod owning;

pub use at_key::rows_at;
pub use by_key::rows_by_key;
