//! The rows of update views: what each cell holds of an entity and the links that it hosts, or of a link.

mod link_cells;
mod link_rows;
mod rows;
mod view_cells;

pub use link_cells::LinkCell;
pub use link_rows::{LinkRow, link_row};
pub use rows::{ViewRow, filled, rows_of_region};
pub use view_cells::ViewCell;
