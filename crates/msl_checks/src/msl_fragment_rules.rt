//! What is wrong in the fragments of entities of an MSL document: what they write, and their conditions.

mod fragments;
mod key;

pub use fragments::first_fragment_fault;
