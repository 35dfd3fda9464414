//! The rules of SSDL on what is written in a document, beside those on names that it shares with CSDL: which one is broken where.

mod columns;
mod foreign;
mod keys;
mod names;
mod rules;

pub use names::{Owners, first_endless, first_shared};
pub use rules::first_store_fault;
