//! The state that changes lead to, or the first change that is refused.

mod applied;
mod fates;
mod foretold;
mod lists;
mod refusals;
mod standing;
mod types;

pub use applied::{ApplyFault, apply};
pub use fates::{Fate, Fates};
