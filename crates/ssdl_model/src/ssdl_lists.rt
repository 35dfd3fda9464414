//! What is written in an SSDL document, as the lists of a CSDL document; what the types of its columns are, and which table has which type.

mod columns;
mod store;
mod tables;

pub use columns::{ColumnTypes, column_simple, has_column_length};
pub use store::read_store;
pub use tables::{table_at, tables_of};
