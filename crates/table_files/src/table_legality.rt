//! Whether tables are legal, and the first breach of their rules: null and domains of cells, keys of rows, and foreign keys.

mod cells;
mod columns;
mod first;
mod keys;
mod legal;
mod references;
mod rows;
mod rule;

pub use first::{first_breach, legal_tables_have_no_breach};
pub use legal::is_legal;
pub use rule::TableRule;
