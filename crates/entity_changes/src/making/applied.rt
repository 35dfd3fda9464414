ghost use Rattle.std.specs.Prelude.{IfOk};
ghost use Rattle.round_trip.specs.Words.{IsState};
ghost use Rattle.entity_changes.specs.Applying.{AreGoodChanges, TellsApplied};

use crate::change::{Change, Reason};
use crate::making::lists::changed_state;
use crate::making::refusals::first_refused;
use edm_types::EntityModel;
use emc_base::{Memory, Seq};
use entity_state::EntityState;
use std::alloc::Global;

/// Why changes aren't made.
#[derive(Clone, Copy, Debug, PartialEq, Eq)]
pub enum ApplyFault {
    /// The first change that is refused at its turn, by its place among them, counted from 0, and why.
    Refused { index: u64, reason: Reason },
    /// Memory ran out.
    Memory,
}

impl From<Memory> for ApplyFault {
    ghost use Rattle.std.specs.Prelude.{◌≡◌};
    ghost use Rattle.entity_changes.specs.declared.making.applied.ApplyFault.TheVariants as fault;

    ghost from_gives = { λ _ given. given ≡ fault.Memory };

    fn from(_memory: Memory) -> ApplyFault {
        ApplyFault::Memory
    }
}

/// The state that changes lead to, one behind the other: what comes stands behind the others of its list, and what takes the place of another stands in
/// its place; it is a state of the model too. The first change that is refused at its turn is told, and then nothing is changed.
pub fn apply(
    alloc: Global,
    model: &EntityModel,
    changes: &Seq<Change>,
    state: &EntityState,
) -> Result<EntityState, ApplyFault>
    requires { AreGoodChanges model.now state.now changes.now }
    ensures applied { TellsApplied model.now state.now changes.now result }
    ensures state { IfOk result (IsState model.now) }
{
    if let Some((index, reason)) = first_refused(alloc, model, changes.as_slice(), state)? {
        return Err(ApplyFault::Refused { index, reason });
    }
    let new = changed_state(alloc, model, changes.as_slice(), state)?;
    Ok(new)
}
