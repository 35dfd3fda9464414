//! The constants of groups of properties and columns.

mod constants;

pub use constants::constants_of;
