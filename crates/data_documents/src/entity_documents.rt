//! Entity documents: entities for each entity set and links for each independent association set as JSON, the first place where one is of
//! another shape, and the state that it holds.

mod doc_shape;
mod entity_shape;
mod link_shape;
mod members;
mod names;
mod read;
mod state;
mod tables;

pub use entity_shape::first_in_entity;
pub use link_shape::{first_in_key, first_in_link};
pub use members::independent_at;
pub use names::{ModelNames, text_at};
pub use read::{entity_in, key_in, link_in};
pub use state::{entity_of_node, key_of_node, link_of_node, state_of_doc};
