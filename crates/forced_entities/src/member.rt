use emc_base::{Seq, SetId, TypeId};
use regions::Symbol;

/// An entity that each legal state holds beside another one, or beside a link.
#[derive(Drop)]
pub struct Forced {
    /// The set in which it stands.
    pub set: SetId,
    /// It is of this type, or one under it.
    pub ty: TypeId,
    /// Its key, in the order of the type's key: of each part the symbol whose value it has; `None` where that isn't known.
    pub key: Seq<Option<Symbol>>,
}
