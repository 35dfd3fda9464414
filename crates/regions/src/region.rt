use condition_logic::AtomOf;
use emc_base::{AssocId, Seq, SetId, TypeId};

/// A kind of entities of a set: their type, what is known of their tested properties, and the associations whose links they host.
#[derive(Drop)]
pub struct Region {
    pub set: SetId,
    pub ty: TypeId,
    /// One for each tested property, in the order of the type's properties.
    pub atoms: Seq<AtomOf>,
    /// In the order of associations.
    pub linked: Seq<AssocId>,
}
