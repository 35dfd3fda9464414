//! The entities that each legal state holds beside an entity of a region, or beside a link.
#![tactic(auto)]

mod known;
mod laws;
mod member;
mod members;
mod spots;
mod stepping;
mod walk;

pub use laws::{
    forced_entities_are_listed, forced_entities_of_small_models,
    no_legal_state_lacks_a_forced_entity,
};
pub use member::Forced;
pub use walk::forced;
