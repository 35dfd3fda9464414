use edm_types::{Entity, Link};
use emc_base::{AssocId, Key, SetId};

/// A change of an entity state.
#[derive(Drop)]
pub enum Change {
    /// The entity comes into the set; none with its key was there.
    Insert(SetId, Entity),
    /// The entity takes the place of the one with its key, which has its type.
    Update(SetId, Entity),
    /// The entity with this key goes.
    Delete(SetId, Key),
    /// The link comes into the association set; it wasn't there.
    Link(AssocId, Link),
    /// The link goes.
    Unlink(AssocId, Link),
}

/// Why a change is refused.
#[derive(Clone, Copy, Debug, PartialEq, Eq)]
pub enum Reason {
    /// An insert whose key is there.
    Exists,
    /// An update or a delete whose key isn't there.
    Absent,
    /// An update of an entity of another type.
    TypeChanged,
    /// A link that is there.
    LinkExists,
    /// An unlink of a link that isn't there.
    LinkAbsent,
}
