//! What the commands print of changes: of what is wrong with them, and of the changes of rows that they lead to.

mod changed_rows;
mod refusals;

pub use changed_rows::{circular_text, row_change_text};
pub use refusals::{change_shape_text, free_reference_text, new_breach_text, refused_text};
