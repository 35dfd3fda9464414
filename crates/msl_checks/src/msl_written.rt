//! What is wrong in a list of pairs or of conditions of a mapping.

mod between;
mod conditions;
mod kinds;
mod pairs;
mod repeats;
mod rising;
mod writing;

pub use between::Between;
pub use conditions::first_condition_fault;
pub use pairs::MeantPairs;
pub use repeats::first_twice_written;
pub use writing::Writing;
