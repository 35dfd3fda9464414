use emc_base::{PropId, Value};

/// What is known of the value of a tested property.
#[derive(Clone, Drop)]
pub enum Atom {
    /// It is null.
    Null,
    /// It is this one.
    Is(Value),
    /// It is neither null nor one of the constants that its group is compared with.
    Other,
}

/// A property with what is known of its value.
#[derive(Clone, Drop)]
pub struct AtomOf {
    pub prop: PropId,
    pub atom: Atom,
}
