//! The groups of a mapping's properties and columns, with their constants, and whether they are tested.
#![tactic(auto)]

mod group_constants;
mod group_numbers;
mod groups;
pub mod joined_groups;
mod mapping_asks;
mod tested;

pub use group_constants::constants_of;
pub use group_numbers::{Numbered, Numbers};
pub use groups::MemberGroups;
pub use joined_groups::{Label, column_label, prop_label};
pub use mapping_asks::{Ask, MemberId, asks_of, with_several, writes_of};
