ghost use Rattle.std.specs.Prelude.{◌≡◌, IfOk};
ghost use Rattle.cells.specs.Parts.{schema_in};
ghost use Rattle.region_states.specs.region_basis.BasisOf.{basis_of};
ghost use Rattle.witness_state.specs.Failures.{IsFailureOf};
ghost use Rattle.witness_state.specs.FirstConflict.{IsFirstConflict};
ghost use Rattle.witness_state.specs.Shown.{IsShownOf};

use crate::failure::Failure;
use crate::link_failures::{many_failure, unmapped_failure};
use crate::one_state::{clash_failure, disagreement_failure, null_failure};
use crate::two_states::{absence_failure, lost_failure, rival_failure};
use cells::Parts;
use emc_base::Memory;
use failure_laws::witnesses_fail;
use region_states::{Conflict, parts_are_a_basis};
use std::alloc::Global;

/// A legal state that fails by a conflict, and for the kind `Same` the other state with the same tables besides. What the conflict tells must be so, and no
/// legal state may fail by a kind that is told before its own. The states are small: they hold what the failure needs, principals and partners included, and
/// nothing else. `Memory` comes where memory ran out.
pub fn build(alloc: Global, parts: &Parts<'_>, conflict: &Conflict) -> Result<Failure, Memory>
    requires { IsFirstConflict parts.now conflict.now }
    ensures failure { IfOk result (IsFailureOf (schema_in parts.now)) }
    ensures shown { IfOk result (IsShownOf (basis_of parts.now) conflict.now) }
{
    parts_are_a_basis();
    witnesses_fail();
    shown_of(alloc, parts, conflict)
}

// The states that are shown of a conflict.
fn shown_of(alloc: Global, parts: &Parts<'_>, conflict: &Conflict) -> Result<Failure, Memory>
    requires { IsFirstConflict parts.now conflict.now }
    ensures { IfOk result (IsShownOf (basis_of parts.now) conflict.now) }
{
    match conflict {
        Conflict::Clash {
            focus,
            table,
            col,
            one,
            two,
        } => clash_failure(alloc, parts, focus, *table, *col, one, two),
        Conflict::ManyLinks(assoc) => many_failure(alloc, parts, *assoc),
        Conflict::NullIn {
            focus,
            table,
            col,
            symbol,
        } => null_failure(alloc, parts, focus, *table, *col, symbol),
        Conflict::Disagree { focus, place } => disagreement_failure(alloc, parts, focus, place),
        Conflict::Absent(region) => absence_failure(alloc, parts, region),
        Conflict::Rival { one, two } => rival_failure(alloc, parts, one, two),
        Conflict::Lost { region, prop } => lost_failure(alloc, parts, region, *prop),
        Conflict::Unmapped(assoc) => unmapped_failure(alloc, parts, *assoc),
    }
}
