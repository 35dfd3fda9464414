//! Items that have keys, in the order of their keys, and grouped by them in an ordered map.

mod groups;

pub use groups::{group, in_order};
