//! The links of an entity state by the entities that host them, so that the state is gone over once and not for each entity anew.

mod adding;
mod links;

pub use links::HostLinks;
