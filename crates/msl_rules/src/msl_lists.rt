//! What is written in an MSL document, as lists.

mod named;
mod picks;
mod raw;

pub use picks::read_picks;
pub use raw::{
    RawCond, RawEndMapping, RawFragment, RawLinkMapping, RawMapping, RawPair, RawPick,
    RawSetMapping, RawTypeMapping,
};
