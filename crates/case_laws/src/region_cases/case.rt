use emc_base::{AssocId, PropId, Seq, TableId, Value};
use regions::Region;

/// What a cell of a case holds.
#[derive(Drop)]
pub enum CaseCell {
    /// This value, null included.
    Const(Value),
    /// The entity's value of a property.
    Prop(PropId),
    /// A part of the key of the entity to which a link leads.
    Partner { assoc: AssocId, prop: PropId },
    /// Anything: no fragment names the column.
    Free,
}

/// A row of a case: for each column of the table what it holds.
#[derive(Drop)]
pub struct CaseRow {
    pub table: TableId,
    pub cells: Seq<CaseCell>,
}

/// The case of a region: the rows at the key of one of its entities, at most one of each table, in the order of tables.
#[derive(Drop)]
pub struct Case {
    pub region: Region,
    pub rows: Seq<CaseRow>,
}
