ghost use Rattle.std.specs.Prelude.{All};
ghost use Rattle.cells.specs.Parts.{schema_in};
ghost use Rattle.entity_changes.specs.Changes.{IsChange};
ghost use Rattle.mapping_core.specs.states.Loads.{AreAcceptedParts};
ghost use Rattle.mapping_core.specs.states.SaveParts.{CanBePlannedFor, CountsPlanned, PlansForKept};

use crate::compiled::CompiledParts;
use crate::saving::fault::SaveFault;
use delta_plan::{PlanFault, plan, rows_of_views_are_the_tables, touched};
use emc_base::{Ledger, Seq};
use entity_changes::{Change, only_touched_units_change};
use entity_state::EntityState;
use row_changes::RowChange;
use std::alloc::Global;
use table_files::Tables;

/// The row changes that lead from the tables of a state to the kept ones of the state after the changes, in order. `Circular` comes where there is no order.
pub(crate) fn planned_changes<L: Ledger>(
    alloc: Global,
    made: &CompiledParts<'_>,
    tables: &Tables,
    changes: &Seq<Change>,
    before: &EntityState,
    after: &EntityState,
    steps: &mut L,
) -> Result<Seq<RowChange>, SaveFault>
    requires made { AreAcceptedParts made.now }
    requires changes { All (IsChange made.now.parts.model.now) changes.now }
    requires planned { CanBePlannedFor (schema_in made.now.parts) tables.now changes.now before.now after.now }
    ensures plans { PlansForKept (schema_in made.now.parts) tables.now after.now result }
    ensures steps { CountsPlanned (schema_in made.now.parts) tables.now changes.now (L.count steps.old) (L.count steps.new) result }
{
    only_touched_units_change();
    rows_of_views_are_the_tables();
    let touched = touched(alloc, &made.parts, changes)?;
    let parts = &made.parts;
    let planned = plan(
        alloc,
        parts.model,
        parts.store,
        parts.cells,
        tables,
        &touched,
        before,
        after,
        made.update_views,
        steps,
    );
    match planned {
        Ok(planned) => Ok(planned),
        Err(PlanFault::Circular(ring)) => Err(SaveFault::Circular(ring)),
        Err(PlanFault::Memory) => Err(SaveFault::Memory),
    }
}
