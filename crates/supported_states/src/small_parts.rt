//! The small parts of supported states that hold what some entities need, made without the rest.

mod needs;
mod part;
mod small;
mod sought;

pub use small::{small_state, small_states};
