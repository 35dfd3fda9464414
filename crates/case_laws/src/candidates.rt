//! A row that is lent, with its table. The definitions are here of what query views give: the entity at a key, and the state of the entities at all keys.

mod placed;

pub use placed::PlacedRow;
