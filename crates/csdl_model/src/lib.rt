//! The reader of CSDL documents: the model that a document means, or the least rule that it breaks, at its first place.
#![tactic(auto)]

mod csdl_sound;
mod reading;

pub use csdl_sound::{a_document_that_breaks_no_rule_is_sound, classes_are_meant};
pub use reading::read_csdl;
