//! Places that links join: the classes of those that links lead between.

mod classes;
mod joining;

pub use classes::{Classes, Link};
