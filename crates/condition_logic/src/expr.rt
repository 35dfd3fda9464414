use edm_types::CondOn;
use emc_base::{Seq, TypeId, Value};

/// A condition on an entity or on a row.
#[derive(Drop)]
pub enum Expr {
    /// Each of these holds.
    All(Seq<Expr>),
    /// One of these holds.
    Any(Seq<Expr>),
    /// This doesn't hold.
    Not(Box<Expr>),
    /// The entity's type is this one or derived from it.
    IsOf(TypeId),
    /// The entity's type is this one.
    OnlyOf(TypeId),
    /// It is null.
    IsNull(CondOn),
    /// It is this value. Null equals no value.
    Equals(CondOn, Value),
}
