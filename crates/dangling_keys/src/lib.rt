//! Foreign keys that dangle: at which focus some legal state has a row that refers by a key and finds none.
#![tactic(auto)]

mod key;
mod laws;

pub use key::DanglingKey;
pub use laws::{
    a_mapping_round_trips_by_its_conflicts, dangling_keys_are_decided,
    what_is_not_forced_is_left_out,
};
