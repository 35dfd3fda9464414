//! Values and their kinds, texts, lists and keys, and a count of steps.
#![tactic(auto)]

mod bin;
mod found;
mod ids;
mod key_ref;
mod ledger;
mod memory;
mod order;
mod place;
mod seq;
mod txt;
mod value;
mod value_ref;

pub use bin::Bin;
pub use found::put_found;
pub use ids::{
    AssocId, ColId, FkId, FragId, GroupId, LinkFragId, PropId, SetId, TableId, TypeId, narrow,
};
pub use key_ref::KeyRef;
pub use ledger::{Ledger, Steps};
pub use memory::{Memory, beside, both};
pub use order::{compare, compare_keys, order_is_total};
pub use place::Place;
pub use seq::{MOST_ITEMS, Seq};
pub use txt::Txt;
pub use value::{EnumKind, Key, Kind, Under, Value, character_count, in_domain};
pub use value_ref::ValueRef;
