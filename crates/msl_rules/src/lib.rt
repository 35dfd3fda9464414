//! MSL documents as lists, the rules that they break and where, and the mapping that one means: definitions over a model, a store and lists of what is written.
#![tactic(auto)]

mod condition_values;
mod msl_lists;

pub use condition_values::{spelled, value_of};
pub use msl_lists::{
    RawCond, RawEndMapping, RawFragment, RawLinkMapping, RawMapping, RawPair, RawPick,
    RawSetMapping, RawTypeMapping, read_picks,
};
