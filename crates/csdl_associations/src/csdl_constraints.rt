//! The rules of CSDL on associations: which multiplicities they may have, and how the lists of a constraint match.

mod dependent;
mod marks;
mod matching;
mod mults;
mod named;
mod rules;
mod sides;

pub use dependent::{Dependent, dependents};
pub use matching::breaks_lists;
pub use named::named_associations;
pub use rules::first_constraint_fault;
pub use sides::Sides;
