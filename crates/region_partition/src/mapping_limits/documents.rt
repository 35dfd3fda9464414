ghost use Rattle.std.specs.Prelude.{flat_map};
ghost use Rattle.region_partition.specs.mapping_limits.Checked.{TellsFirst, of_mapping, of_model, of_store, of_table, of_type};

use crate::mapping_limits::passed::{Passed, at_most};
use edm_types::{EntityModel, EntityType, LimitKind, Mapping, StoreModel, Table};

// The most entity sets.
const MOST_SETS: u64 = 64;

// The most association sets.
const MOST_ASSOCS: u64 = 256;

// The most entity types.
const MOST_TYPES: u64 = 512;

// The most properties of a type, those of its base types included.
const MOST_PROPS: u64 = 256;

// The most tables.
const MOST_TABLES: u64 = 256;

// The most columns of a table.
const MOST_COLUMNS: u64 = 128;

// The most foreign keys.
const MOST_KEYS: u64 = 1024;

// The most fragments, those of links included.
const MOST_FRAGMENTS: u64 = 1024;

// Looks at the limits on a model.
pub(super) fn check_model(model: &EntityModel) -> Result<(), Passed<'_>>
    ensures { TellsFirst (of_model model.now) result }
{
    at_most(LimitKind::Sets, "", model.sets.len() as u64, MOST_SETS)?;
    at_most(
        LimitKind::Associations,
        "",
        model.assocs.len() as u64,
        MOST_ASSOCS,
    )?;
    at_most(LimitKind::Types, "", model.types.len() as u64, MOST_TYPES)?;
    check_types(model.types.as_slice())
}

// Looks at the limit on properties, type by type.
fn check_types(types: &[EntityType]) -> Result<(), Passed<'_>>
    ensures { TellsFirst (flat_map of_type types.now) result }
{
    for ty in types {
        check_type(ty)?;
    }
    Ok(())
}

// The same at one type.
fn check_type(ty: &EntityType) -> Result<(), Passed<'_>>
    ensures { TellsFirst (of_type ty.now) result }
{
    let counted = ty.props.len() as u64;
    at_most(LimitKind::Properties, ty.name.as_str(), counted, MOST_PROPS)
}

// Looks at the limits on a store.
pub(super) fn check_store(store: &StoreModel) -> Result<(), Passed<'_>>
    ensures { TellsFirst (of_store store.now) result }
{
    at_most(
        LimitKind::Tables,
        "",
        store.tables.len() as u64,
        MOST_TABLES,
    )?;
    check_tables(store.tables.as_slice())?;
    at_most(LimitKind::Foreign, "", store.keys.len() as u64, MOST_KEYS)
}

// Looks at the limit on columns, table by table.
fn check_tables(tables: &[Table]) -> Result<(), Passed<'_>>
    ensures { TellsFirst (flat_map of_table tables.now) result }
{
    for table in tables {
        check_table(table)?;
    }
    Ok(())
}

// The same at one table.
fn check_table(table: &Table) -> Result<(), Passed<'_>>
    ensures { TellsFirst (of_table table.now) result }
{
    let counted = table.cols.len() as u64;
    at_most(
        LimitKind::Columns,
        table.name.as_str(),
        counted,
        MOST_COLUMNS,
    )
}

// Looks at the limit on fragments.
pub(super) fn check_mapping(mapping: &Mapping) -> Result<(), Passed<'_>>
    ensures { TellsFirst (of_mapping mapping.now) result }
{
    let counted = mapping.fragments.len() as u64 + mapping.links.len() as u64;
    at_most(LimitKind::Fragments, "", counted, MOST_FRAGMENTS)
}
