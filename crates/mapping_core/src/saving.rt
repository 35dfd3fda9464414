mod changed;
mod fault;
mod kept_tables;
pub mod laws;
mod planned;
mod saved;

ghost use Rattle.std.specs.Prelude.{All};
ghost use Rattle.cells.specs.Parts.{schema_in};
ghost use Rattle.entity_changes.specs.Changes.{IsChange};
ghost use Rattle.round_trip.specs.Words.{AreTables};
ghost use Rattle.mapping_core.specs.states.Loads.{AreAcceptedParts};
ghost use Rattle.mapping_core.specs.states.Saves.{Saves, Tell};
ghost use Rattle.mapping_core.specs.states.SaveSteps.{CountsSteps};

use crate::compiled::{Compiled, CompiledParts};
use crate::loading::load;
use crate::saving::changed::changed_state;
use crate::saving::kept_tables::kept_tables;
use crate::saving::planned::planned_changes;
use emc_base::{Ledger, Seq};
use entity_changes::Change;
use entity_state::EntityState;
pub use fault::SaveFault;
pub use saved::Saved;
use std::alloc::Global;
use table_files::Tables;

/// Changes the state that tables tell by an accepted mapping. The answer is the tables of the state afterwards, in which free columns are kept, in the order of
/// their keys, and the row changes that lead there, in an order that keeps all keys after each of them.
///
/// The faults come in their order: `Load` exactly where the tables tell no state, `Refused` where a change is refused at its turn, `Breach` where the state afterwards
/// isn't legal, `FreeReference` where a row of the kept tables refers to none, `Circular` where no order keeps all keys; and `Memory` where memory ran out.
///
/// Row changes are planned at touched keys alone: each entity that stands at one, before and afterwards, counts one step, and nothing else does. The time is near
/// linear in the rows and the changes.
pub fn save<L: Ledger>(
    alloc: Global,
    compiled: &Compiled,
    tables: &Tables,
    changes: &Seq<Change>,
    steps: &mut L,
) -> Result<Saved, SaveFault>
    requires tables { AreTables compiled.now.store tables.now }
    requires changes { All (IsChange compiled.now.model) changes.now }
    ensures saves { Saves compiled.now tables.now changes.now result }
    ensures steps { CountsSteps compiled.now tables.now changes.now (L.count steps.old) (L.count steps.new) result }
{
    let state = load(alloc, compiled, tables)?;
    let made = compiled.parts();
    save_loaded(alloc, &made, tables, &state, changes, steps)
}

// The same from the state that the tables tell, by what an accepted mapping is made of.
fn save_loaded<L: Ledger>(
    alloc: Global,
    made: &CompiledParts<'_>,
    tables: &Tables,
    state: &EntityState,
    changes: &Seq<Change>,
    steps: &mut L,
) -> Result<Saved, SaveFault>
    requires made { AreAcceptedParts made.now }
    requires told { Tell (schema_in made.now.parts) tables.now state.now }
    requires changes { All (IsChange made.now.parts.model.now) changes.now }
    ensures saves { Saves (schema_in made.now.parts) tables.now changes.now result }
    ensures steps { CountsSteps (schema_in made.now.parts) tables.now changes.now (L.count steps.old) (L.count steps.new) result }
{
    let after = changed_state(alloc, made.parts.model, changes, state)?;
    let kept = kept_tables(alloc, made, tables, &after)?;
    let planned = planned_changes(alloc, made, tables, changes, state, &after, steps)?;
    Ok(Saved {
        tables: kept,
        changes: planned,
    })
}
