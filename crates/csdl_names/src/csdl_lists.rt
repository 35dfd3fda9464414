//! What is written in a CSDL document, as lists, and what the names in it stand for.

mod bases;
mod named;
mod pairs;
mod raw;
mod scope;

pub use bases::bases_of;
pub use raw::{
    RawAssociation, RawAssociationSet, RawBound, RawConstraint, RawContainer, RawEnd, RawEnum,
    RawMember, RawModel, RawNav, RawProp, RawRole, RawSet, RawSetEnd, RawType,
};
pub use scope::Scope;
