ghost use Rattle.std.specs.Prelude.{◌≡◌, Contains, IfOk, length};
ghost use Rattle.round_trip.specs.Words.{key_columns, value_beside};
ghost use Rattle.round_trip.specs.soundness.Lookups.{set_key};
ghost use Rattle.keyed_rows.specs.set_rows.Owning.{IsBeside};

use edm_types::{EntityModel, StoreModel};
use emc_base::{ColId, Memory, PropId, SetId, TableId, Value};
use std::alloc::Global;

/// The key of a set's entities.
pub(super) fn set_key(model: &EntityModel, set: SetId) -> &[PropId]
    ensures { result.now ≡ set_key model.now set }
{
    let Some(entry) = model.sets.get(set.index as usize) else {
        return &[];
    };
    match model.types.get(entry.element.index as usize) {
        Some(declared) => declared.key.as_slice(),
        None => &[],
    }
}

/// The columns of a table's primary key.
pub(super) fn key_columns(store: &StoreModel, table: TableId) -> &[ColId]
    ensures { result.now ≡ key_columns store.now table }
{
    match store.tables.get(table.index as usize) {
        Some(declared) => declared.key.as_slice(),
        None => &[],
    }
}

/// The column at the place where a property stands.
pub(super) fn column_beside(props: &[PropId], cols: &[ColId], prop: PropId) -> ColId
    requires long { length cols.now ≡ length props.now }
    requires among { Contains props.now prop }
    ensures { IsBeside props.now cols.now prop result }
{
    for (place, other) in props.iter().enumerate() {
        if *other == prop {
            return cols[place];
        }
    }
    unreachable!()
}

/// A copy of the value that stands beside a property; null where none does. `Memory` comes where memory ran out.
pub(super) fn value_beside(
    alloc: Global,
    prop: PropId,
    props: &[PropId],
    values: &[Value],
) -> Result<Value, Memory>
    ensures { IfOk result (λ value. value ≡ value_beside prop props.now values.now) }
{
    for (other, value) in props.iter().zip(values) {
        if *other == prop {
            return value.copy(alloc);
        }
    }
    Ok(Value::Null)
}
