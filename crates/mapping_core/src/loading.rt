ghost use Rattle.cells.specs.Parts.{schema_in};
ghost use Rattle.round_trip.specs.Words.{AreLegalTables, AreTables, IsLegal};
ghost use Rattle.mapping_core.specs.states.Loads.{AreAcceptedParts, Compares, Loads, LoadsLegal};

pub mod laws;

use crate::compiled::{Compiled, CompiledParts};
use edm_types::{Breach, Row};
use emc_base::{Memory, Place};
use entity_state::EntityState;
use keyed_rows::{first_difference, same_tables_have_no_difference};
use query_views::StateFault;
use state_legality::first_breach;
use std::alloc::Global;
use table_files::Tables;

/// Why tables tell no state.
#[derive(Drop)]
pub enum LoadFault {
    /// They aren't legal: the least rule of tables that they break, at its first place.
    Breach(Breach),
    /// The rows at a key meet no case: the first, by set and key.
    NoCase(Place),
    /// The state that they tell isn't legal: the least rule of states that it breaks, at its first place.
    Illegal(Breach),
    /// They aren't the tables of the state that they tell, free cells aside: the first row, by table and key, in which they differ, as it is held and as it is
    /// demanded.
    Differs {
        place: Place,
        held: Option<Row>,
        demanded: Option<Row>,
    },
    /// Memory ran out.
    Memory,
}

impl From<Memory> for LoadFault {
    ghost use Rattle.std.specs.Prelude.{◌≡◌};
    ghost use Rattle.mapping_core.specs.declared.loading.LoadFault.TheVariants as fault;

    ghost from_gives = { λ _ given. given ≡ fault.Memory };

    fn from(_memory: Memory) -> LoadFault {
        LoadFault::Memory
    }
}

impl From<StateFault> for LoadFault {
    ghost use Rattle.mapping_core.specs.states.Loads.{TellsLack};

    ghost from_gives = { TellsLack };

    fn from(fault: StateFault) -> LoadFault {
        match fault {
            StateFault::NoCase(place) => LoadFault::NoCase(place),
            StateFault::Memory => LoadFault::Memory,
        }
    }
}

/// The state that tables tell by an accepted mapping: the one legal state whose tables they are, free cells aside. `Breach` comes exactly where the tables aren't
/// legal. `NoCase`, `Illegal` and `Differs` come exactly where they are and no legal state has them, in this order; and `Memory` where memory ran out. The time is
/// near linear in the rows.
pub fn load(alloc: Global, compiled: &Compiled, tables: &Tables) -> Result<EntityState, LoadFault>
    requires { AreTables compiled.now.store tables.now }
    ensures { Loads compiled.now tables.now result }
{
    let made = compiled.parts();
    let rows = tables.as_slice();
    if let Some(breach) = table_files::first_breach(alloc, rows, made.parts.store)? {
        return Err(LoadFault::Breach(breach));
    }
    load_legal(alloc, &made, tables)
}

// The same of tables that are legal, by what an accepted mapping is made of.
fn load_legal(
    alloc: Global,
    made: &CompiledParts<'_>,
    tables: &Tables,
) -> Result<EntityState, LoadFault>
    requires made { AreAcceptedParts made.now }
    requires legal { AreLegalTables made.now.parts.store.now tables.now }
    ensures { LoadsLegal (schema_in made.now.parts) tables.now result }
{
    let state = made.query_views.state_of(alloc, &made.parts, tables)?;
    if let Some(breach) = first_breach(alloc, &state, made.parts.model)? {
        return Err(LoadFault::Illegal(breach));
    }
    compare(alloc, made, tables, &state)?;
    Ok(state)
}

// Compares tables with those of a legal state, free cells aside.
fn compare(
    alloc: Global,
    made: &CompiledParts<'_>,
    tables: &Tables,
    state: &EntityState,
) -> Result<(), LoadFault>
    requires made { AreAcceptedParts made.now }
    requires tables { AreLegalTables made.now.parts.store.now tables.now }
    requires legal { IsLegal made.now.parts.model.now state.now }
    ensures { Compares made.now.parts tables.now state.now result }
{
    same_tables_have_no_difference();
    let fresh = made.update_views.tables_of(alloc, &made.parts, state)?;
    match first_difference(alloc, made.parts.store, made.parts.cells, tables, &fresh)? {
        None => Ok(()),
        Some(found) => Err(LoadFault::Differs {
            place: found.place,
            held: found.held,
            demanded: found.demanded,
        }),
    }
}
