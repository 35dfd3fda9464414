ghost use Rattle.cells.specs.Parts.{schema_in};
ghost use Rattle.round_trip.specs.Words.{AreLegalTables, IsLegal};
ghost use Rattle.mapping_core.specs.states.Loads.{AreAcceptedParts};
ghost use Rattle.mapping_core.specs.states.SaveParts.{KeepsTables};

use crate::compiled::CompiledParts;
use crate::saving::fault::SaveFault;
use delta_plan::kept;
use entity_state::EntityState;
use std::alloc::Global;
use table_files::{Tables, first_breach};

/// The tables of a legal state with the free columns of others, in the order of their keys; they are legal. `FreeReference` comes where a row refers to none.
pub(crate) fn kept_tables(
    alloc: Global,
    made: &CompiledParts<'_>,
    tables: &Tables,
    state: &EntityState,
) -> Result<Tables, SaveFault>
    requires made { AreAcceptedParts made.now }
    requires tables { AreLegalTables made.now.parts.store.now tables.now }
    requires legal { IsLegal made.now.parts.model.now state.now }
    ensures { KeepsTables (schema_in made.now.parts) tables.now state.now result }
{
    let fresh = made.update_views.tables_of(alloc, &made.parts, state)?;
    let kept = kept(alloc, &made.parts, tables, &fresh)?;
    match first_breach(alloc, kept.as_slice(), made.parts.store)? {
        Some(breach) => Err(SaveFault::FreeReference(breach.place)),
        None => Ok(kept),
    }
}
