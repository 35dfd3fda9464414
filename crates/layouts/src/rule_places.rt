//! Rules that speak of what lists hold: where they are broken, and the least of such faults.

mod again;
mod lists;
mod sites;

pub use again::{Again, first_twice};
pub use lists::{behind, behind_member, fault_at_item, fault_on_item, first_at, first_in_list};
pub use sites::{fault_at, fault_here_if, fault_if};
