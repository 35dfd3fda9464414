use edm_types::{Entity, Link};
use emc_base::{AssocId, Key, Seq, SetId};

/// An entity in a set.
#[derive(Drop)]
pub struct Placed {
    pub set: SetId,
    pub entity: Entity,
}

/// A key in a set.
#[derive(Drop)]
pub struct PlacedKey {
    pub set: SetId,
    /// In the order of the set's key.
    pub key: Key,
}

/// A link of an association.
#[derive(Drop)]
pub struct PlacedLink {
    pub assoc: AssocId,
    pub link: Link,
}

/// What a supported state is made of: given entities and links, and the keys at which plain entities support them.
#[derive(Drop)]
pub struct Supporting {
    pub given: Seq<Placed>,
    pub keys: Seq<PlacedKey>,
    pub links: Seq<PlacedLink>,
}
