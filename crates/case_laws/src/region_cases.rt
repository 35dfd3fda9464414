//! Cases: the rows by which an entity of a region or a link of a joined association is told, and read back.

mod case;
mod link_case;

pub use case::{Case, CaseCell, CaseRow};
pub use link_case::{LinkCase, LinkCaseCell};
