//! The mapping that an MSL document means, and the least fault of its names and of what its parts pick.
#![tactic(auto)]

mod msl_found;
mod msl_making;
mod msl_names;
mod msl_picks;

pub use msl_found::{InTable, picked_type};
pub use msl_making::{make_fragment, make_link, make_mapping};
pub use msl_names::{first_mapped_twice, first_other_container, first_unresolved_name};
pub use msl_picks::{allow_climbs, first_other_association, first_type_name_fault};
