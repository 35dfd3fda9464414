//! The region of a set that holds an entity with the links that it hosts, found by a table that is made once, without the mapping.

mod counting;
mod making;
mod numbering;
mod telling;

pub use numbering::{RegionTable, TypeTests};
pub use telling::{LinkRule, LinkTest, Test, ValueTest};
