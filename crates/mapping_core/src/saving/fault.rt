use crate::loading::LoadFault;
use edm_types::Breach;
use emc_base::{Memory, Place, Seq};
use entity_changes::{ApplyFault, Reason};
use row_changes::RowChange;

/// Why changes aren't saved. The first of these that is so is told, in this order.
#[derive(Drop)]
pub enum SaveFault {
    /// The tables tell no state, as `load` says; never that memory ran out.
    Load(LoadFault),
    /// The first change that is refused at its turn, by its place among them, counted from 0, and why.
    Refused { index: u64, reason: Reason },
    /// The state after the changes isn't legal: the least rule of states that it breaks, at its first place.
    Breach(Breach),
    /// A free column of a row that stays refers to no row: the first by table, key and foreign key.
    FreeReference(Place),
    /// No order of the row changes keeps all keys: each of these has to come before the next, and the last before the first.
    Circular(Seq<RowChange>),
    /// Memory ran out.
    Memory,
}

impl From<Memory> for SaveFault {
    ghost use Rattle.std.specs.Prelude.{◌≡◌};
    ghost use Rattle.mapping_core.specs.declared.saving.fault.SaveFault.TheVariants as fault;

    ghost from_gives = { λ _ given. given ≡ fault.Memory };

    fn from(_memory: Memory) -> SaveFault {
        SaveFault::Memory
    }
}

impl From<LoadFault> for SaveFault {
    ghost use Rattle.mapping_core.specs.states.SaveParts.{IsOfLoad};

    ghost from_gives = { IsOfLoad };

    fn from(fault: LoadFault) -> SaveFault {
        match fault {
            LoadFault::Memory => SaveFault::Memory,
            other => SaveFault::Load(other),
        }
    }
}

impl From<ApplyFault> for SaveFault {
    ghost use Rattle.mapping_core.specs.states.SaveParts.{IsOfApply};

    ghost from_gives = { IsOfApply };

    fn from(fault: ApplyFault) -> SaveFault {
        match fault {
            ApplyFault::Refused { index, reason } => SaveFault::Refused { index, reason },
            ApplyFault::Memory => SaveFault::Memory,
        }
    }
}
