//! Reads members of JSON nodes: texts, flags, numbers, and lists of whatever is read from a node. Each has a default where there is no
//! such member, so that a document that breaks no rule of its layout is read as it stands.

mod lists;
mod members;
mod objects;

pub use lists::{FromNode, items_at, list_at, texts_at};
pub use members::{flag_at, optional_text_at, text_at, whole_at};
pub use objects::{object_at, optional_object_at};
