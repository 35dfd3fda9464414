use edm_types::Row;
use emc_base::{Seq, TableId, Value};

/// A change of one row, told by the primary key of its table.
#[derive(Drop)]
pub enum RowChange {
    /// The row comes; none with its key was there.
    Insert(TableId, Row),
    /// The row takes the place of the one with its key.
    Update(TableId, Row),
    /// The row with this key goes; the values stand in the order of the primary key.
    Delete(TableId, Seq<Value>),
}
