//! Tables: the rows of each table of a store, by key, in key order, and as a document; whether they are legal, and the first breach of their rules.
#![tactic(auto)]

mod cells;
mod key_order;
mod local_rows;
mod sort_entry;
pub mod table_legality;
mod tables;
mod tables_tree;
mod told_apart;

pub use key_order::KeyOrder;
pub use local_rows::LocalRows;
pub use table_legality::{TableRule, first_breach, is_legal, legal_tables_have_no_breach};
pub use tables::{TableRow, Tables};
pub use tables_tree::row_tree;
pub use told_apart::are_told_apart;
