use crate::txt::Txt;
use crate::value::Key;

/// Where something was found: what it stands in, by name; its key; and what of it, which is empty where it is the
/// whole.
#[derive(Clone, Drop)]
pub struct Place {
    /// A set, a table or a fragment's JSON pointer.
    pub name: Txt,
    /// The key of the entity or row, or the two keys of a link; empty where it is none of these.
    pub key: Key,
    /// A property, a column, a role or a foreign key.
    pub part: Txt,
}
