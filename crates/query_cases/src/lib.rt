//! The cases of regions: made, indexed, met by rows, and read back.
#![tactic(auto)]

mod case_cells;
mod case_index;
mod case_making;
pub mod case_reading;

pub use case_cells::may_hold;
pub use case_index::CaseIndex;
pub use case_making::{cases_of, link_case};
pub use case_reading::{CellPlace, LinkReading, Reading, Source, Twins, met_cases_are_read};
