//! The mapping that an MSL document means, made from its lists.

mod conditions;
mod fragments;
mod links;
mod mapping;
mod places;

pub use fragments::make_fragment;
pub use links::make_link;
pub use mapping::make_mapping;
