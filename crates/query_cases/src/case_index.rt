//! An index of the cases of an entity set by what their rows hold.

mod codes;
mod index;
mod known;
mod telling;
mod told;

pub use index::CaseIndex;
