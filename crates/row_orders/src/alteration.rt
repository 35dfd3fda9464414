use edm_types::Row;
use emc_base::TableId;

/// The row of a key before and afterwards; neither where there is none.
#[derive(Clone, Copy)]
pub struct Alteration<'t> {
    /// The table of the row.
    pub table: TableId,
    /// The row before.
    pub old: Option<&'t Row>,
    /// The row afterwards.
    pub new: Option<&'t Row>,
}
