//! What the symbols of a cell can be and what a cell holds that has no clash; and copies of regions.

mod copies;
mod settled;

pub use copies::{copy_region, focus_on};
pub use settled::{CanBe, can_be_null, cell_passes, clash, possible};
