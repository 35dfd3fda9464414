ghost use Rattle.round_trip.specs.Words.{IsState};
ghost use Rattle.mapping_core.specs.states.Stores.{Stores};

use crate::compiled::Compiled;
use edm_types::Breach;
use emc_base::Memory;
use entity_state::EntityState;
use state_legality::first_breach;
use std::alloc::Global;
use table_files::Tables;

/// Why a state isn't stored.
#[derive(Drop)]
pub enum StoreFault {
    /// It isn't legal: the least rule of states that it breaks, at its first place.
    Breach(Breach),
    /// Memory ran out.
    Memory,
}

impl From<Memory> for StoreFault {
    ghost use Rattle.std.specs.Prelude.{◌≡◌};
    ghost use Rattle.mapping_core.specs.declared.storing.StoreFault.TheVariants as fault;

    ghost from_gives = { λ _ given. given ≡ fault.Memory };

    fn from(_memory: Memory) -> StoreFault {
        StoreFault::Memory
    }
}

/// The tables of a state by an accepted mapping. `Breach` comes exactly where the state isn't legal, and `Memory` where memory ran out. The time is near linear
/// in the entities and links.
pub fn store_all(
    alloc: Global,
    compiled: &Compiled,
    state: &EntityState,
) -> Result<Tables, StoreFault>
    requires { IsState compiled.now.model state.now }
    ensures { Stores compiled.now state.now result }
{
    let made = compiled.parts();
    if let Some(breach) = first_breach(alloc, state, made.parts.model)? {
        return Err(StoreFault::Breach(breach));
    }
    let tables = made.update_views.tables_of(alloc, &made.parts, state)?;
    Ok(tables)
}
