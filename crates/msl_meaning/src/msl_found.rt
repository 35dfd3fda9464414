//! What the pairs and conditions in a mapping stand for: the properties of a type, and the columns of a table.

mod in_table;
mod picked;

pub use in_table::InTable;
pub use picked::picked_type;
