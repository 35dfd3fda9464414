//! The names in MSL documents: what is mapped twice, what stands for nothing, and what containers are called.

mod containers;
mod in_table;
mod lacking;
mod repeats;
mod unresolved;

pub use containers::first_other_container;
pub use repeats::first_mapped_twice;
pub use unresolved::first_unresolved_name;
