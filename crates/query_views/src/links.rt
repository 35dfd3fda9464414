//! The links that tables tell, lent: of each association in the order of the first end's key and then the second's.

mod columns;
mod hosted;
mod joined;
mod keys;
mod lent;

pub(crate) use keys::{first_key, second_key};
pub(crate) use lent::{LentLinks, lent_links};
