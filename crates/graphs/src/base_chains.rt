//! Types in a list, each with a base at most: the order in which each follows its base, and along chains of bases sums, roots, marks, and what stands above what.

mod above;
mod ancestry;
mod bases;
mod climbing;
mod jumping;
mod marks;
mod roots;
mod sizes;
mod walking;

pub use above::places_above;
pub use ancestry::Ancestry;
pub use bases::stay_within;
pub use marks::marked_below;
pub use roots::chain_roots;
pub use sizes::chain_sizes;
pub use walking::{Walk, walk_bases};
