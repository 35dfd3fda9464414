//! Where the links of a mapped association stand: in the rows of one end's entities, or in rows of their own.

mod placed;

pub use placed::{is_hosted, is_joined, is_placed};
