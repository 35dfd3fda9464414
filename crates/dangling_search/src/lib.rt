//! The search for foreign keys that dangle: key by key, at the regions of the set or at the links of the association that owns its table.
#![tactic(auto)]

mod at_focus;
mod first;
mod fitting;
mod region_rows;
mod shown;
mod target;

pub use first::first_dangling;
pub use fitting::{fits, own_member};
pub use shown::{Look, Shown, cell_at, not_null_for, shown_at};
pub use target::{Owned, owned_by};
