//! The cases of regions and of joined associations, made from a mapping with its cells.

mod cases;
mod links;

pub use cases::cases_of;
pub use links::link_case;
