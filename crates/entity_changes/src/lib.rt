//! Changes of entities and links, one after the other: the state that they lead to, the first that is refused, and what they touch.
#![tactic(auto)]

mod change;
mod copies;
mod laws;
mod making;
mod spots;
mod touched;

pub use change::{Change, Reason};
pub use laws::{changed_states_are_states, only_touched_units_change, same_states_change_alike};
pub use making::{ApplyFault, Fate, Fates, apply};
pub use spots::Spot;
pub use touched::Touched;
