//! The state, the tables or the changes that a JSON document tells, or the first place where it is of another shape.
#![tactic(auto)]

mod change_documents;
mod entity_documents;
pub mod printed;
mod shape_faults;
mod sound_names;
mod table_documents;

pub use change_documents::changes_of_doc;
pub use entity_documents::{ModelNames, entity_of_node, key_of_node, link_of_node, state_of_doc};
pub use printed::{printed_entities_are_read, printed_tables_are_read, what_is_read_holds_texts};
pub use shape_faults::{
    MemberSearch, NodeSearch, ShapeFault, ShapePlace, ShapeStep, first_in_array, first_in_object,
    first_lack, here_if, value_of_node,
};
pub use sound_names::{names_of_a_sound_model_are_apart, names_of_a_sound_store_are_apart};
pub use table_documents::tables_of_doc;
