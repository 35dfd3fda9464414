//! Makes the store that an SSDL document means, from its lists.

mod foreign;
mod ids;
mod store;
mod tables;

pub use store::make_store;
