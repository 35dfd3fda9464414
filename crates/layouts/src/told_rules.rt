//! What a reader of a document answers: why it stops, and a broken rule as it is told, by the file, the number of the rule, and the pointer
//! of the place.

mod stop;
mod telling;

pub use stop::Stop;
pub use telling::told;
