//! Supported states as a program makes them: plain entities, what they refer to, what supports them, and the small parts that some entities need.
#![tactic(auto)]

mod asking;
mod declared;
mod distinct;
mod levels;
mod numbers;
mod plain;
mod small_parts;
mod spots;
mod values;

pub use asking::principals;
pub use levels::support;
pub use numbers::{key_from, numbered_key};
pub use plain::plain_entity;
pub use small_parts::{small_state, small_states};
pub use values::{fresh, fresh_at, letter};
