ghost use Rattle.std.specs.Prelude.{◌≡◌, ◌<◌, All, IfOk, length, map};
ghost use Rattle.cells.specs.Parts.{AreParts, schema_in};
ghost use Rattle.emc_base.specs.Lists.{At};
ghost use Rattle.round_trip.specs.Words.{AreLegalTables, AssocId, cells_of};
ghost use Rattle.query_views.specs.LinkKeys.{IsJoinedAt, ShowJoinedKeys, shown_keys};

use crate::links::columns::columns_of;
use cells::Parts;
use edm_types::{Assoc, Row};
use emc_base::{ColId, LinkFragId, Memory, Value};
use keyed_rows::lent_cells;
use std::alloc::Global;
use table_files::Tables;

/// The keys of the links that the rows of an association's own table tell, in the order of the rows. `Memory` comes where memory ran out.
pub(super) fn joined_keys<'t>(
    alloc: Global,
    parts: &Parts<'_>,
    tables: &'t Tables,
    assoc: &Assoc,
    number: LinkFragId,
) -> Result<Vec<(Vec<&'t Value>, ())>, Memory>
    requires parts { AreParts parts.now }
    requires joined { IsJoinedAt (schema_in parts.now) assoc.now number }
    requires legal { AreLegalTables parts.now.store.now tables.now }
    ensures { IfOk result (λ keyed. ShowJoinedKeys (schema_in parts.now) assoc.now number tables.now (shown_keys keyed.items)) }
{
    let fragment = parts.mapping.links.at(number.index as usize);
    let columns = columns_of(alloc, parts.model, assoc, fragment)?;
    row_keys(
        alloc,
        tables.rows(fragment.table).as_slice(),
        columns.as_slice(),
    )
}

// The cells of each row in these columns.
fn row_keys<'t>(
    alloc: Global,
    rows: &'t [Row],
    columns: &[ColId],
) -> Result<Vec<(Vec<&'t Value>, ())>, Memory>
    requires { All (λ row. All (λ col. col.index < length row.cells) columns.now) rows.now }
    ensures { IfOk result (λ keyed. shown_keys keyed.items ≡ map (λ row. cells_of row columns.now) rows.now) }
{
    let mut keyed = Vec::new(alloc);
    for row in rows {
        keyed.push((lent_cells(alloc, row, columns)?, ()))?;
    }
    Ok(keyed)
}
