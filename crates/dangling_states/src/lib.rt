//! Legal entity states that fail by foreign keys that dangle, whole, as the reason why a mapping is not accepted: for each key and focus that is told, one.
#![tactic(auto)]

mod both;
mod failures;
mod lone;
mod outer;
mod partners;
mod places;
mod principal;
mod referring;
mod values;

pub use failures::dangling_failure;
