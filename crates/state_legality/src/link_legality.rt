//! Whether the links of a state and the principals of its entities are legal, and the first breach of their rules: S5 to S8.

mod counts;
mod ends;
mod first;
mod in_order;
mod legal;
mod once;
mod principals;
mod side;
mod standing;
mod under;

pub use first::{first_in_links, legal_links_have_no_breach};
pub use legal::are_legal_links;
