//! The entity model, the store model and the mapping between them, as lists whose places are the ids.
#![tactic(auto)]

mod data;
mod faults;
mod forest;
mod keys;
mod mapping;
mod model;
mod names;
mod schema;
mod store;

pub use data::{Entity, Hosted, Link, Row};
pub use faults::{Breach, LimitFault, LimitKind, RuleFault, VocabFault, VocabFile};
pub use forest::{is_of, subtree};
pub use keys::key_of;
pub use mapping::{Cond, CondOn, Fragment, LinkFragment, Mapping, Pair, Pick, Test};
pub use model::{
    Assoc, Constraint, End, EntityModel, EntitySet, EntityType, Mult, Nav, Prop, TypeNode,
};
pub use names::{is_name, is_namespace, is_plain_name};
pub use schema::Schema;
pub use store::{Column, ForeignKey, StoreModel, Table};
