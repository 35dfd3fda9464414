//! What is wrong in the mappings of association sets of an MSL document: what their ends write, where links stand, and their conditions.

mod again;
mod columns;
mod conditions;
mod end_keys;
mod ends;
mod links;
mod of_link;

pub use links::first_link_fault;
