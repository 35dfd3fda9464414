//! Which values a cell of a case may hold.

mod holding;

pub use holding::may_hold;
