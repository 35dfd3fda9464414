//! All by which a mapping writes a table, in the order of the document: the first that pairs the table's key otherwise than its owner does before, and the first by a second owner.

mod firsts;
mod owners;
mod ownership;
mod pairings;
mod writer;

pub use owners::first_other_owner;
pub use pairings::first_other_pairing;
pub use writer::{Owner, Writer};
