//! The verdict on a mapping within the limits: a legal state that fails, or that each is kept.

mod failures;

pub use failures::first_failure;
pub use witness_state::Failure;
