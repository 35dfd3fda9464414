//! The values of entities by their properties, their keys, and the lists of a state: what looks at states stands on this.

mod compared;
mod lists;
mod rule;
mod values;

pub use compared::{has_values, have_no_null, have_same_values, is_null, is_null_at};
pub use lists::{entities_at, links_at, list_at};
pub use rule::StateRule;
pub use values::{key_of, keys_of, place_of, value_at, value_of, values_of};
