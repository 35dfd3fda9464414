//! The mapping that the word `drill` tries, and the documents that it makes from a number.
#![tactic(auto)]

mod changes;
mod draws;
mod entities;
mod laws;
mod line;
mod links;
mod lists;
mod mapping;
mod objects;

pub use changes::changes_document;
pub use entities::entities_document;
pub use laws::{
    changes_are_counted, changes_are_told, four_of_seed_one, links_are_to_the_nearest_employee,
    lists_are_told, objects_are_counted,
};
pub use line::drill_line;
pub use mapping::{DrillMapping, drill_mapping};
