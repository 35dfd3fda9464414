use emc_base::{AssocId, ColId, PropId, Seq, SetId, TableId, Txt, TypeId, Value};

/// A mapping: what an MSL document of version 3 says. Fragments stand in the order of their places in the document.
#[derive(Drop)]
pub struct Mapping {
    pub fragments: Seq<Fragment>,
    pub links: Seq<LinkFragment>,
}

/// A part of a set's entities that is written to a table. The place is the JSON pointer of the document's MappingFragment.
#[derive(Drop)]
pub struct Fragment {
    pub place: Txt,
    pub set: SetId,
    pub picks: Seq<Pick>,
    pub table: TableId,
    pub pairs: Seq<Pair>,
    pub conds: Seq<Cond>,
}

/// A type that a fragment selects: that type alone, or all types below it too.
#[derive(Clone, Copy, Debug, PartialEq, Eq)]
pub struct Pick {
    pub ty: TypeId,
    /// Whether the types below it are selected too.
    pub below: bool,
}

/// A property and the column that it is written to.
#[derive(Clone, Copy, Debug, PartialEq, Eq)]
pub struct Pair {
    pub prop: PropId,
    pub col: ColId,
}

/// How the links of an association set are written to a table: the key of each end to its columns. The place is the JSON
/// pointer of the document's AssociationSetMapping.
#[derive(Drop)]
pub struct LinkFragment {
    pub place: Txt,
    pub assoc: AssocId,
    pub table: TableId,
    pub first: Seq<Pair>,
    pub second: Seq<Pair>,
    pub conds: Seq<Cond>,
}

/// A condition of a fragment.
#[derive(Drop)]
pub struct Cond {
    pub on: CondOn,
    pub test: Test,
}

/// What a condition speaks of.
#[derive(Clone, Copy, Debug, PartialEq, Eq)]
pub enum CondOn {
    /// A property of the entities that are selected.
    Prop(PropId),
    /// A column of the rows that are shown.
    Col(ColId),
}

/// What a condition asks. Null equals no value.
#[derive(Drop)]
pub enum Test {
    /// Whether it is null, or is not.
    IsNull(bool),
    /// Whether it is this value.
    Equals(Value),
}
