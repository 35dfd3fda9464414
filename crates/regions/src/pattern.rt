use crate::region::Region;
use emc_base::{AssocId, PropId, Seq, TableId, Value};

/// A value that a cell is to hold, as far as the kind of the entity or link tells it.
#[derive(Drop)]
pub enum Symbol {
    /// Null.
    Null,
    /// A constant.
    Const(Value),
    /// The entity's value of a property.
    Prop(PropId),
    /// A part of the key of the entity at an end of a link.
    End {
        assoc: AssocId,
        /// Whether it is the first end.
        first: bool,
        prop: PropId,
    },
}

/// A row of a table: for each column the symbols whose values it is to hold, without repeats.
#[derive(Drop)]
pub struct PatternRow {
    pub table: TableId,
    pub cells: Seq<Seq<Symbol>>,
}

/// The rows that an entity with its hosted links demands, or a link: at most one of each table, in the order of tables.
#[derive(Drop)]
pub struct Pattern {
    pub rows: Seq<PatternRow>,
}

/// Of whom a pattern speaks.
#[derive(Drop)]
pub enum Focus {
    /// An entity of a region with its hosted links.
    Entity(Region),
    /// A link of a joined association.
    Link(AssocId),
}
