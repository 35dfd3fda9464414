//! The rules of CSDL on types, on their properties and on enumeration types: which one is broken where.
#![tactic(auto)]

mod bounds;
mod enums;
mod inherited;
mod keys;
mod numbers;
mod prop_types;
mod simple;
mod sizes;
mod type_rules;
mod typing;

pub use bounds::{breaks_bound, has_length};
pub use keys::{KeyTest, first_failing_key_prop, is_key, is_key_simple, stands_in};
pub use numbers::{numbers_of, under_of};
pub use simple::{PropType, Simple, prop_type, simple_of};
pub use type_rules::first_type_fault;
pub use typing::Typing;
