//! The reader of MSL documents: the mapping that a document means between a model and a store, or the least rule that it breaks, at its first
//! place.
#![tactic(auto)]

mod msl_owners;
mod msl_sound;
mod reading;
mod sound_fragments;
mod sound_links;
mod sound_owners;

pub use msl_owners::first_owner_fault;
pub use msl_sound::a_mapping_that_breaks_no_rule_is_sound;
pub use reading::read_msl;
pub use sound_fragments::kept_fragments_are_sound;
pub use sound_links::kept_links_are_sound;
pub use sound_owners::{fragments_stand_apart, kept_tables_have_one_owner};
