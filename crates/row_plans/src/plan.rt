use emc_base::Seq;
use row_changes::RowChange;

/// What the changes of rows come to.
#[derive(Drop)]
pub enum RowPlan {
    /// All changes, in an order in which each of them keeps all keys.
    Steps(Seq<RowChange>),
    /// Some of them: each has to come before the next, and the last before the first.
    Circular(Seq<RowChange>),
}
