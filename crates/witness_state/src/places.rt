ghost use Rattle.std.specs.Prelude.{◌≡◌, [], IfOk, List};
ghost use Rattle.cells.specs.Parts.{AreParts, schema_in};
ghost use Rattle.round_trip.specs.Words.{Column, Pair, Table, key_of, place_at};
ghost use Rattle.round_trip.specs.FailsAt.{HasColumn};
ghost use Rattle.round_trip.specs.soundness.mappings.Owners.{Owns};
ghost use Rattle.witness_state.specs.CellPlaces.{IsCellPlace};

use cells::Parts;
use edm_types::{Entity, EntityModel};
use emc_base::{ColId, Memory, Place, SetId, TableId, Txt};
use entity_state::{place_of, values_of};
use std::alloc::Global;

/// The place of a cell in the row of an entity, in a table that the entity's set owns. The row's key is told in the order of the table's primary key.
/// `Memory` comes where memory ran out.
pub fn cell_place(
    alloc: Global,
    parts: &Parts<'_>,
    table: TableId,
    col: ColId,
    entity: &Entity,
) -> Result<Place, Memory>
    requires parts { AreParts parts.now }
    requires column { (one : Table) × (column : Column) × HasColumn (schema_in parts.now) table one col column }
    ensures { (s : SetId) (pairs : List Pair) → Owns (schema_in parts.now) table s pairs → IfOk result (IsCellPlace (schema_in parts.now) s table col entity.now) }
{
    let declared = parts.store.tables.at(table.index as usize);
    let column = declared.cols.at(col.index as usize);
    let pairing = parts.cells.pairing(table);
    Ok(Place {
        name: declared.name.copy(alloc)?,
        key: values_of(alloc, parts.model, entity, pairing.as_slice())?,
        part: column.name.copy(alloc)?,
    })
}

/// The place of an entity as a whole, in what has this name. `Memory` comes where memory ran out.
pub fn key_place(
    alloc: Global,
    model: &EntityModel,
    name: &Txt,
    entity: &Entity,
) -> Result<Place, Memory>
    ensures { IfOk result (λ place. place ≡ place_at name.now (key_of model.now entity.now) []) }
{
    let whole = Txt::of(alloc, "")?;
    place_of(alloc, model, name, entity, &whole)
}
