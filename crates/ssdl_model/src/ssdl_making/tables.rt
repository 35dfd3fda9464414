ghost use Rattle.std.specs.Prelude.{◌≡◌, IfOk, map};
ghost use Rattle.std.specs.List.{filter_map};
ghost use Rattle.csdl_meaning.specs.Meaning.{declared_by};
ghost use Rattle.ssdl_model.specs.ssdl_making.StoreMeaning.{col_named, column_kind, column_of, key_of_type, table_meant, table_with};

use crate::ssdl_lists::column_simple;
use crate::ssdl_making::ids::cols_in;
use csdl_meaning::simple_kind;
use csdl_names::{Lookups, RawProp, RawSet};
use edm_types::{Column, Table};
use emc_base::{ColId, Kind, Memory, Seq};
use std::alloc::Global;

/// The tables, in the order of the document.
pub(super) fn tables_in(alloc: Global, lookups: &Lookups<'_>) -> Result<Seq<Table>, Memory>
    ensures { IfOk result (λ tables. tables ≡ map (table_meant lookups.now.model.now) lookups.now.model.now.container.sets) }
{
    let mut tables = Seq::empty(alloc);
    for set in lookups.model.container.sets.as_slice() {
        let ty = lookups.type_named(&set.element);
        tables.push(table_with(alloc, lookups, set, ty)?)?;
    }
    Ok(tables)
}

// A table with a type that may not be found.
fn table_with(
    alloc: Global,
    lookups: &Lookups<'_>,
    set: &RawSet,
    ty: Option<usize>,
) -> Result<Table, Memory>
    ensures { IfOk result (λ table. table ≡ table_with lookups.now.model.now set.now ty) }
{
    let name = set.name.copy(alloc)?;
    let Some(ty) = ty else {
        return Ok(Table {
            name,
            cols: Seq::empty(alloc),
            key: Seq::empty(alloc),
        });
    };
    let cols = columns_of(alloc, lookups, ty)?;
    let key = key_of(alloc, lookups, ty)?;
    Ok(Table { name, cols, key })
}

// The columns of the type at a place.
fn columns_of(alloc: Global, lookups: &Lookups<'_>, ty: usize) -> Result<Seq<Column>, Memory>
    ensures { IfOk result (λ columns. columns ≡ map column_of (declared_by lookups.now.model.now ty)) }
{
    match lookups.model.types.get(ty) {
        None => Ok(Seq::empty(alloc)),
        Some(declared) => {
            let columns = columns_in(alloc, &declared.props)?;
            Ok(columns)
        }
    }
}

// These columns.
fn columns_in(alloc: Global, props: &Seq<RawProp>) -> Result<Seq<Column>, Memory>
    ensures { IfOk result (λ columns. columns ≡ map column_of props.now) }
{
    let mut columns = Seq::empty(alloc);
    for prop in props.as_slice() {
        columns.push(column_of(alloc, prop)?)?;
    }
    Ok(columns)
}

// A column.
fn column_of(alloc: Global, prop: &RawProp) -> Result<Column, Memory>
    ensures { IfOk result (λ column. column ≡ column_of prop.now) }
{
    let kind = column_kind(prop)?;
    Ok(Column {
        name: prop.name.copy(alloc)?,
        kind,
        nullable: prop.nullable,
    })
}

// The kind of a column.
fn column_kind(prop: &RawProp) -> Result<Kind, Memory>
    ensures { IfOk result (λ kind. kind ≡ column_kind prop.now) }
{
    match column_simple(prop.kind.as_str()) {
        None => Ok(Kind::Boolean),
        Some(simple) => simple_kind(prop.bound, simple),
    }
}

// The key of the type at a place.
fn key_of(alloc: Global, lookups: &Lookups<'_>, ty: usize) -> Result<Seq<ColId>, Memory>
    ensures { IfOk result (λ key. key ≡ filter_map (col_named lookups.now.model.now ty) (key_of_type lookups.now.model.now ty)) }
{
    let Some(declared) = lookups.model.types.get(ty) else {
        return Ok(Seq::empty(alloc));
    };
    let Some(names) = &declared.key else {
        return Ok(Seq::empty(alloc));
    };
    let key = cols_in(alloc, lookups, ty, names)?;
    Ok(key)
}
