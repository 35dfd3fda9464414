//! Entity states: entities for each entity set and links for each association set, by key, in key order, and as a document; the values and keys of entities, and the order of breaches.
#![tactic(auto)]

pub mod breach_order;
mod entity_values;
mod key_order;
mod keys;
mod state;
mod state_tree;

pub use breach_order::{Found, first_repeat, first_repeated_key, lent_keys};
pub use entity_values::{
    StateRule, entities_at, has_values, have_no_null, have_same_values, is_null, is_null_at,
    key_of, keys_of, links_at, list_at, place_of, value_at, value_of, values_of,
};
pub use state::EntityState;
