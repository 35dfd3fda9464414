use edm_types::Pair;
use emc_base::{AssocId, Seq, SetId, TableId};

/// Whose things are the rows that are written.
#[derive(Clone, Copy, Debug, PartialEq, Eq)]
pub enum Owner {
    /// An entity set, whose entities are the rows.
    Set(SetId),
    /// An association, whose links are the rows.
    Assoc(AssocId),
}

/// What writes a table: an entity fragment, a hosted association at one of its ends, or a joined association.
#[derive(Drop)]
pub struct Writer {
    /// The table that is written.
    pub table: TableId,
    /// Whose rows are written.
    pub owner: Owner,
    /// The key properties of the owner and the primary-key columns that they are written to, in any order.
    pub key: Seq<Pair>,
}
