//! The rules of CSDL on associations, their constraints, entity sets and association sets.
#![tactic(auto)]

mod csdl_association_sets;
mod csdl_constraints;

pub use csdl_association_sets::first_set_fault;
pub use csdl_constraints::{
    Dependent, Sides, breaks_lists, dependents, first_constraint_fault, named_associations,
};
