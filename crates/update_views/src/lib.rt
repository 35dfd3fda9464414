//! The update views of a mapping: the rows that an entity demands with the links that it hosts, or a link by itself, and the tables of a state.
#![tactic(auto)]

mod laws;
mod making;
mod region_table;
mod state_tables;
pub mod view_rows;
mod views;

pub use laws::views_fill_cases;
pub use region_table::{LinkRule, LinkTest, RegionTable, Test, TypeTests, ValueTest};
pub use view_rows::{LinkCell, LinkRow, ViewCell, ViewRow, filled, link_row, rows_of_region};
pub use views::UpdateViews;
