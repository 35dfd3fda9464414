//! The rows that an entity of a region or a link demands, in symbols, and what a cell without a clash can hold.
#![tactic(auto)]

mod grouped;
mod hosting;
mod patterns;
mod rows;
mod selects;
mod settled_cells;
mod symbols;
mod writing;
mod writings;

pub use hosting::is_linked;
pub use patterns::{link_pattern, pattern, region_pattern};
pub use selects::{atom_at, passes};
pub use settled_cells::{CanBe, can_be_null, cell_passes, clash, copy_region, focus_on, possible};
pub use symbols::{copy_symbol, same_symbol, stands};
pub use writings::writes;
