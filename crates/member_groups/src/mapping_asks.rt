//! What a mapping asks of properties and columns and what it writes, as lists, and the numbers that stand with several.

mod asks;
mod member;
mod several;
mod writes;

pub use asks::{Ask, asks_of};
pub use member::MemberId;
pub use several::with_several;
pub use writes::writes_of;
