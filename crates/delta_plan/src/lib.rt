//! Changes of entities turned into changes of rows: the tables with free columns kept, and a plan in which each step keeps all keys.
#![tactic(auto)]

mod asking;
mod gathering;
mod keeping;
mod kept_tables;
mod laws;
mod marked;
mod marks;
mod planning;
mod running;
mod touching;

pub use kept_tables::kept;
pub use laws::rows_of_views_are_the_tables;
pub use planning::{PlanFault, plan};
pub use running::run_changes;
pub use touching::touched;
