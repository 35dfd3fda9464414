//! Conflicts of two states with the same tables: entities that leave no row, values that leave no trace, and regions that are written alike.

mod absent;
mod first;
mod forms;
mod lost;
mod matching;
mod rivals;
mod written;

pub use first::first_same;
