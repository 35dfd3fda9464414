//! Plain lists, exactly and near linear: the least fault of their items, where each name is given first, items by their keys, classes of linked places.
#![tactic(auto)]

pub mod item_groups;
pub mod least_fault;
pub mod linked_places;
pub mod name_places;

pub use item_groups::{group, in_order};
pub use least_fault::{Finder, earlier, earlier_of, first_among};
pub use linked_places::{Classes, Link};
pub use name_places::{
    Named, Places, are_apart, first_places, holds_each_once, places_of, rest_after,
};
