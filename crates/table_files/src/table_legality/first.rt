ghost use Rattle.std.specs.Prelude.{IfOk};
ghost use Rattle.groupings.specs.least_fault.Least.{IsLeast};
ghost use Rattle.round_trip.specs.Words.{AreLegalTables, AreTables, Breach, StoreModel, Tables};
ghost use Rattle.round_trip.specs.legality.TableBreaches.{IsBreachOfTables};
ghost use Rattle.entity_state.specs.breach_order.Founds.{found_cmp};
ghost use Rattle.table_files.specs.table_legality.Tells.{BreaksTables, TellsTables};

use crate::table_legality::columns::TableCells;
use crate::table_legality::keys::TableKeys;
use crate::table_legality::references::ForeignKeys;
use edm_types::{Breach, Row, StoreModel};
use emc_base::{Memory, Seq};
use entity_state::Found;
use groupings::{earlier_of, first_among};
use std::alloc::Global;

/// The first breach of the rules of tables: the least rule that is broken, at its first place. `None` comes exactly where the tables are
/// legal, and `Memory` where memory ran out.
pub fn first_breach(
    alloc: Global,
    tables: &[Seq<Row>],
    store: &StoreModel,
) -> Result<Option<Breach>, Memory>
    requires { AreTables store.now tables.now }
    ensures { IfOk result (TellsTables store.now tables.now) }
{
    match first_found(alloc, tables, store)? {
        Some(found) => Ok(Some(found.breach())),
        None => Ok(None),
    }
}

// The least of what breaks the rules.
fn first_found(
    alloc: Global,
    tables: &[Seq<Row>],
    store: &StoreModel,
) -> Result<Option<Found>, Memory>
    ensures { IfOk result (IsLeast found_cmp (BreaksTables store.now tables.now)) }
{
    let cells = first_among(alloc, &TableCells { tables }, store.tables.as_slice());
    let keys = first_among(alloc, &TableKeys { tables }, store.tables.as_slice());
    let foreign_keys = ForeignKeys { store, tables };
    let references = first_among(alloc, &foreign_keys, store.keys.as_slice());
    earlier_of(earlier_of(cells, keys), references)
}

/// The law that legal tables have no breach: so each answer of [`first_breach`] comes exactly where its word holds.
pub fn legal_tables_have_no_breach()
    ensures { (store : StoreModel) (tables : Tables) (breach : Breach) → AreLegalTables store tables → ¬ IsBreachOfTables store tables breach }
{}
