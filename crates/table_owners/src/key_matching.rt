//! Whether some of the pairs of a fragment match the properties of a key with the columns of a primary key, one for one.

mod matching;

pub use matching::matches;
