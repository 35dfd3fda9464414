ghost use Rattle.std.specs.Prelude.{◌≡◌, ◌<◌, ◌++◌, ◌∷◌, [], All, IfOk, List, length};
ghost use Rattle.round_trip.specs.Words.{TableId, rows_in};
ghost use Rattle.table_files.specs.declared.tables.TableRow.{TableRow};
ghost use Rattle.delta_plan.specs.RowsOf.{named};

use edm_types::StoreModel;
use emc_base::Memory;
use std::alloc::Global;
use table_files::{TableRow, Tables};

/// Rows in the tables that they name, in their order.
pub(crate) fn gathered(
    alloc: Global,
    store: &StoreModel,
    rows: Vec<TableRow>,
) -> Result<Tables, Memory>
    requires { All (λ one. one.table.index < length store.now.tables) rows.items }
    ensures size { IfOk result (λ tables. length tables ≡ length store.now.tables) }
    ensures each { IfOk result (λ tables. (t : TableId) → rows_in tables t ≡ named t rows.items) }
{
    let mut tables = Tables::empty(alloc, store)?;
    for one in rows {
        put(&mut tables, one)?;
    }
    Ok(tables)
}

// Puts a row in the table that it names, behind the others.
fn put(tables: &mut Tables, one: TableRow) -> Result<(), Memory>
    requires { one.table.index < length tables.old }
    ensures size { IfOk result (λ _. length tables.new ≡ length tables.old) }
    ensures more { IfOk result (λ _. (t : TableId) (rows : List TableRow) → rows_in tables.old t ≡ named t rows → rows_in tables.new t ≡ named t (rows ++ one ∷ [])) }
{
    tables.insert(one.table, one.row)?;
    Ok(())
}
