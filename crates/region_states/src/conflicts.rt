//! Conflicts: what makes some legal entity state fail, told by regions and symbols.

mod conflict;

pub use conflict::Conflict;
