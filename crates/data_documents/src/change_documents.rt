//! Change documents: inserts, updates and deletes of entities, links and unlinks, one behind the other as JSON; the first place where one is of
//! another shape, and the changes that it tells.

mod changes;
mod operation;
mod read;
mod sets;
mod shape;

pub use changes::changes_of_doc;
