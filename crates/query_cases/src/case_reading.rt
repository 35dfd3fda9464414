//! How an entity is read from the rows at its key by a case of its set.

mod firsts;
mod laws;
mod links;
mod making;
mod meeting;
mod reading;
mod shown;

pub use laws::met_cases_are_read;
pub use reading::{CellPlace, LinkReading, Reading, Source, Twins};
