use edm_types::Row;
use emc_base::TableId;

/// A row that is lent, and its table.
#[derive(Clone, Copy)]
pub struct PlacedRow<'t> {
    pub table: TableId,
    pub row: &'t Row,
}
