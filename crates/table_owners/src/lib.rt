//! Whom each table belongs to, how its set's key is paired with its primary key, where links stand, and which columns are free.
#![tactic(auto)]

mod clearing;
mod free_columns;
mod key_matching;
mod laws;
mod link_places;
mod owners;
mod pairings;
mod places;
mod putting;
mod sources;
pub mod table_writers;

pub use free_columns::free_columns_of;
pub use key_matching::matches;
pub use laws::{a_link_is_hosted_at_one_end, hosted_links_are_told};
pub use link_places::{is_hosted, is_joined, is_placed};
pub use owners::owners_of;
pub use pairings::pairings_of;
pub use places::{LinkPlace, places_of};
pub use table_writers::{Owner, Writer, first_other_owner, first_other_pairing};
