//! Arrows between places: the first arrow of a list that lies on a cycle.

mod arrow;
mod components;
mod cycle;
mod search;
mod within;

pub use arrow::Arrow;
pub use cycle::first_on_cycle;
pub use within::stay_within;
