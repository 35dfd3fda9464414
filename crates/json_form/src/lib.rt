//! JSON documents as trees: what is read is exactly what `serde_json` reads, and parts are lent without copying.
#![tactic(auto)]

mod doc;
mod from_nodes;
mod node;
mod pointer;
mod step_order;
mod tree;

pub use doc::{Doc, DocFault};
pub use from_nodes::{
    FromNode, flag_at, items_at, list_at, object_at, optional_object_at, optional_text_at, text_at,
    texts_at, whole_at,
};
pub use node::Node;
pub use pointer::{Step, place_order_is_total, pointer_of};
pub use tree::{array_tree, key_tree, object_tree, place_text, quoted, text_tree, value_tree};
