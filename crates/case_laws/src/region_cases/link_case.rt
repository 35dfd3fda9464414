use emc_base::{AssocId, PropId, Seq, TableId, Value};

/// What a cell of a link's row holds.
#[derive(Drop)]
pub enum LinkCaseCell {
    /// This value, null included.
    Const(Value),
    /// A part of the key of the entity at an end.
    End {
        /// Whether it is the first end.
        first: bool,
        prop: PropId,
    },
    /// Anything: no fragment names the column.
    Free,
}

/// The case of a joined association: the row of a link, for each column of the table what it holds.
#[derive(Drop)]
pub struct LinkCase {
    pub assoc: AssocId,
    pub table: TableId,
    pub cells: Seq<LinkCaseCell>,
}
