ghost use Rattle.std.specs.Prelude.{IfOk};
ghost use Rattle.entity_changes.specs.Applying.{AreGoodChanges};
ghost use Rattle.entity_changes.specs.making.Standing.{IsFirstRefused};

use crate::change::{Change, Reason};
use crate::making::standing::Standing;
use edm_types::EntityModel;
use emc_base::Memory;
use entity_state::EntityState;
use std::alloc::Global;

/// The first change that is refused at its turn, by its place, counted from 0, and why; `None` exactly where none is. `Memory` comes where memory ran out.
pub(super) fn first_refused(
    alloc: Global,
    model: &EntityModel,
    changes: &[Change],
    state: &EntityState,
) -> Result<Option<(u64, Reason)>, Memory>
    requires { AreGoodChanges model.now state.now changes.now }
    ensures { IfOk result (IsFirstRefused model.now state.now changes.now) }
{
    let mut standing = Standing::of(alloc, model, state)?;
    for (place, change) in changes.iter().enumerate() {
        if let Some(reason) = standing.take(alloc, model, change)? {
            return Ok(Some((place as u64, reason)));
        }
    }
    Ok(None)
}
