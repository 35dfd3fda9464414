use emc_base::{Place, Txt};

/// The documents of a mapping.
#[derive(Clone, Copy, Debug, PartialEq, Eq)]
pub enum VocabFile {
    /// The entity model.
    Csdl,
    /// The store model.
    Ssdl,
    /// The mapping between the two.
    Msl,
}

/// A broken rule of the documents: its number, and the JSON pointer of the place.
#[derive(Drop)]
pub struct RuleFault {
    pub file: VocabFile,
    /// The number that is printed after `V`.
    pub rule: u8,
    pub place: Txt,
}

/// Why a document was not read as a model or a mapping.
#[derive(Drop)]
pub enum VocabFault {
    /// A rule is broken.
    Rule(RuleFault),
    /// Memory ran out.
    Memory,
}

/// A broken rule of legality: its number among the rules of states, or of tables, and where it is broken.
#[derive(Drop)]
pub struct Breach {
    /// The number that is printed after `S` or `B`.
    pub rule: u8,
    pub place: Place,
}

/// A passed limit: how many there are, and how many may be. The name says where, if there are several places.
#[derive(Drop)]
pub struct LimitFault {
    pub what: LimitKind,
    pub name: Txt,
    pub counted: u64,
    pub allowed: u64,
}

/// What is limited.
#[derive(Clone, Copy, Debug, PartialEq, Eq)]
pub enum LimitKind {
    /// Entity sets.
    Sets,
    /// Association sets.
    Associations,
    /// Entity types.
    Types,
    /// Properties of one type, inherited ones included.
    Properties,
    /// Tables.
    Tables,
    /// Columns of one table.
    Columns,
    /// Foreign keys.
    Foreign,
    /// Fragments, of entities and of links.
    Fragments,
    /// Constants that are compared within one group of properties and columns.
    Constants,
    /// Kinds of entities of one set that are stored alike.
    Regions,
}
