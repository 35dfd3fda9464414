//! Who writes each table by an MSL document: where a table has a second owner, and where an owner's key is paired otherwise than before.

mod all_writers;
mod fragments;
mod key_writers;
mod keys;
mod links;
mod owners;
mod spots;

pub use owners::first_owner_fault;
