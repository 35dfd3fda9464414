//! What states and tables share when their first breach is looked for: the order of breaches, and repeated keys.

mod found;
mod in_order;
mod repeats;

pub use found::Found;
pub use repeats::{first_repeat, first_repeated_key, lent_keys};
