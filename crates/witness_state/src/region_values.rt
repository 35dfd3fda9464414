//! Entities of regions with the values that are shown of them, and states of one such entity.

mod changes;
mod clashes;
mod declared;
mod entities;
mod facing;
mod free;
mod indices;
mod rivals;
mod shared;
mod symbols;
mod usual;

pub use declared::{is_among, key_props, props_of};
pub use entities::{clash_entity, lost_entities, rival_entities, usual_entity};
pub(crate) use symbols::value_under;
pub use usual::{default_part, default_value, first_free_of, some_value};
