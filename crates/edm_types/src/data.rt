use emc_base::{AssocId, Key, Seq, TypeId, Value};

/// An entity: its type, and its values in the order of the type's properties.
#[derive(Drop)]
pub struct Entity {
    pub ty: TypeId,
    pub values: Seq<Value>,
}

/// A link of an independent association: the key of the entity at each end.
#[derive(Drop)]
pub struct Link {
    pub first: Key,
    pub second: Key,
}

/// A link as its hosting entity sees it: the association set, and the partner's key.
#[derive(Drop)]
pub struct Hosted {
    pub assoc: AssocId,
    pub partner: Key,
}

/// A row: its cells in the order of the table's columns.
#[derive(Drop)]
pub struct Row {
    pub cells: Seq<Value>,
}
