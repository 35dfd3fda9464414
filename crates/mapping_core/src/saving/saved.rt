use emc_base::Seq;
use row_changes::RowChange;
use table_files::Tables;

/// What is saved.
#[derive(Drop)]
pub struct Saved {
    /// The tables afterwards, in which free columns are kept. The rows of each stand in the order of their keys.
    pub tables: Tables,
    /// The changes of rows that lead there, in an order that keeps all keys after each of them.
    pub changes: Seq<RowChange>,
}
