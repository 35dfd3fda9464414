//! Whether the entity sets of a state are legal, and the first breach of their rules: types, nulls, domains and keys of entities.

mod entities;
mod first;
mod keys;
mod legal;
mod types;
mod values;

pub use first::{first_in_sets, legal_sets_break_no_rule};
pub use legal::are_legal_sets;
