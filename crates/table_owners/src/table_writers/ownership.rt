ghost use Rattle.std.specs.Prelude.{◌≡◌};
ghost use Rattle.table_owners.specs.table_writers.Ownerships.{ownership_of};

use crate::table_writers::writer::{Owner, Writer};

/// A table and its owner, by numbers, so that they can be put in order.
#[derive(Clone, Copy, PartialEq, Eq, PartialOrd, Ord)]
pub enum Ownership {
    /// A table that an entity set owns.
    BySet(u32, u32),
    /// A table that an association owns.
    ByAssoc(u32, u32),
}

impl Writer {
    /// The table that is written, and its owner.
    pub fn ownership(&self) -> Ownership
        ensures { result ≡ ownership_of self.now }
    {
        match self.owner {
            Owner::Set(set) => Ownership::BySet(self.table.index, set.index),
            Owner::Assoc(assoc) => Ownership::ByAssoc(self.table.index, assoc.index),
        }
    }
}
