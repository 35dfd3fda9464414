//! Whether an entity state is legal, and the first breach of its rules, S1 to S8.
#![tactic(auto)]

mod first;
mod legal;
mod link_legality;
mod set_legality;

pub use first::{first_breach, legal_states_have_no_breach};
pub use legal::is_legal;
pub use link_legality::{are_legal_links, first_in_links, legal_links_have_no_breach};
pub use set_legality::{are_legal_sets, first_in_sets, legal_sets_break_no_rule};
