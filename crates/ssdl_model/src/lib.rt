//! The reader of SSDL documents: the store that a document means, or the least rule that it breaks, at its first place.
#![tactic(auto)]

mod reading;
mod roots;
mod ssdl_lists;
mod ssdl_making;
mod ssdl_rules;
mod ssdl_sound;

pub use reading::read_ssdl;
pub use ssdl_lists::{
    ColumnTypes, column_simple, has_column_length, read_store, table_at, tables_of,
};
pub use ssdl_making::make_store;
pub use ssdl_rules::{Owners, first_endless, first_shared, first_store_fault};
pub use ssdl_sound::{a_store_that_breaks_no_rule_is_sound, shelves_are_meant};
