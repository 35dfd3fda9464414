//! The text of query views: the cases of each entity set and of each joined association, as lines of JSON.

mod atom_trees;
mod case_trees;
mod cell_trees;
mod end_trees;
mod link_flags;
mod names;
mod views;

pub use views::views_text;
