use edm_types::{Entity, Hosted};
use emc_base::{Memory, Place, Seq};
use std::alloc::AllocFailed;

/// The entity that rows tell, and the links that it hosts, in the order of associations.
#[derive(Drop)]
pub struct Found {
    pub entity: Entity,
    pub links: Seq<Hosted>,
}

/// Why no entity is told at a key.
#[derive(Drop)]
pub enum EntityFault {
    /// No row stands at the key, in a table that the set owns.
    Absent,
    /// Rows stand there, and meet no case.
    NoCase,
    /// Memory ran out.
    Memory,
}

impl From<Memory> for EntityFault {
    ghost use Rattle.std.specs.Prelude.{◌≡◌};
    ghost use Rattle.query_views.specs.declared.fault.EntityFault.TheVariants as fault;

    ghost from_gives = { λ _ given. given ≡ fault.Memory };

    fn from(_memory: Memory) -> EntityFault {
        EntityFault::Memory
    }
}

/// Why no state is told by tables.
#[derive(Drop)]
pub enum StateFault {
    /// The rows at a key meet no case: the first, by set and key. The place has the set's name and the key.
    NoCase(Place),
    /// Memory ran out.
    Memory,
}

impl From<Memory> for StateFault {
    ghost use Rattle.std.specs.Prelude.{◌≡◌};
    ghost use Rattle.query_views.specs.declared.fault.StateFault.TheVariants as fault;

    ghost from_gives = { λ _ given. given ≡ fault.Memory };

    fn from(_memory: Memory) -> StateFault {
        StateFault::Memory
    }
}

impl<T: Drop> From<AllocFailed<T>> for StateFault {
    ghost use Rattle.std.specs.Prelude.{◌≡◌};
    ghost use Rattle.query_views.specs.declared.fault.StateFault.TheVariants as fault;

    ghost from_gives = { λ _ given. given ≡ fault.Memory };

    fn from(_error: AllocFailed<T>) -> StateFault {
        StateFault::Memory
    }
}
