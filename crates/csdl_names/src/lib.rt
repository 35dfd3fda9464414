//! A CSDL document as lists, and the rules of CSDL on names: that each is given once in its scope, and that each one that is used is given.
#![tactic(auto)]

mod climbs;
pub mod csdl_lists;
mod lookups;
mod repeated;
mod tables;
mod unresolved;

pub use csdl_lists::{
    RawAssociation, RawAssociationSet, RawBound, RawConstraint, RawContainer, RawEnd, RawEnum,
    RawMember, RawModel, RawNav, RawProp, RawRole, RawSet, RawSetEnd, RawType, Scope, bases_of,
};
pub use lookups::{Lookups, PropPlace, end_of_role};
pub use repeated::first_repeated;
pub use tables::props_of;
pub use unresolved::first_unresolved;
