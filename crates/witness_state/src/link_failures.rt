ghost use Rattle.std.specs.Prelude.{◌≡◌, IfOk};
ghost use Rattle.emc_base.specs.Lists.{At};
ghost use Rattle.round_trip.specs.Words.{Assoc};
ghost use Rattle.cells.specs.Parts.{AreParts, schema_in};
ghost use Rattle.failure_laws.specs.SmallLinks.{small_link};
ghost use Rattle.region_states.specs.conflicts.Conflicts.{IsLinkOf};
ghost use Rattle.regions.specs.declared.pattern.Focus.TheVariants as focus;
ghost use Rattle.region_states.specs.region_basis.BasisOf.{basis_of};
ghost use Rattle.region_states.specs.declared.conflicts.conflict.Conflict.TheVariants as conflict;
ghost use Rattle.witness_state.specs.FirstConflict.{IsFirstConflict};
ghost use Rattle.witness_state.specs.Shown.{IsShownOf, shown_alone};

use crate::failure::Failure;
use crate::one_state::alone;
use crate::small_links::{
    link_state, pair_of_link_states, shared_cell_place, shared_state, unmapped_place,
};
use crate::two_states::beside;
use cells::{LinkPlace, Parts};
use emc_base::{AssocId, Memory, Place};
use round_trip::FailKind;
use std::alloc::Global;

/// The failure of a link of a joined association at a place. `Memory` comes where memory ran out.
pub fn joined_failure(
    alloc: Global,
    parts: &Parts<'_>,
    kind: FailKind,
    assoc: AssocId,
    place: Place,
) -> Result<Failure, Memory>
    requires parts { AreParts parts.now }
    requires joined { IsLinkOf (basis_of parts.now) assoc (focus.Link assoc) }
    ensures { (declared : Assoc) → At (schema_in parts.now).model.assocs assoc.index declared
        → IfOk result (λ failure. failure ≡ shown_alone kind place (small_link (schema_in parts.now).model 0 assoc declared)) }
{
    let declared = parts.model.assocs.at(assoc.index as usize);
    let state = link_state(alloc, parts.model, 0, assoc, declared)?;
    Ok(alone(kind, place, state))
}

/// The failure of two partners of one entity. `Memory` comes where memory ran out.
pub fn many_failure(alloc: Global, parts: &Parts<'_>, assoc: AssocId) -> Result<Failure, Memory>
    requires { IsFirstConflict parts.now (conflict.ManyLinks assoc) }
    ensures { IfOk result (IsShownOf (basis_of parts.now) (conflict.ManyLinks assoc)) }
{
    let LinkPlace::Hosted {
        first_hosts,
        fragment,
    } = parts.cells.link_place(assoc)
    else {
        unreachable!()
    };
    let declared = parts.model.assocs.at(assoc.index as usize);
    let place = shared_cell_place(alloc, parts, assoc, first_hosts, fragment)?;
    let state = shared_state(alloc, parts.model, assoc, declared, first_hosts)?;
    Ok(alone(FailKind::Clash, place, state))
}

/// The failure of an association that nothing maps: a link that is there or isn't. `Memory` comes where memory ran out.
pub fn unmapped_failure(alloc: Global, parts: &Parts<'_>, assoc: AssocId) -> Result<Failure, Memory>
    requires { IsFirstConflict parts.now (conflict.Unmapped assoc) }
    ensures { IfOk result (IsShownOf (basis_of parts.now) (conflict.Unmapped assoc)) }
{
    let declared = parts.model.assocs.at(assoc.index as usize);
    let place = unmapped_place(alloc, declared)?;
    let states = pair_of_link_states(alloc, parts.model, assoc, declared)?;
    Ok(beside(place, states))
}
