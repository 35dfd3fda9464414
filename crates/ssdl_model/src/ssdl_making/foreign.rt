ghost use Rattle.std.specs.Prelude.{◌≡◌, IfOk, unwrap_or};
ghost use Rattle.std.specs.Option.{option_and_then};
ghost use Rattle.std.specs.List.{filter_map};
ghost use Rattle.csdl_names.specs.csdl_lists.References.{names_in};
ghost use Rattle.ssdl_model.specs.ssdl_lists.Tables.{table_in, table_of};
ghost use Rattle.ssdl_model.specs.ssdl_making.StoreMeaning.{key_meant, key_of_association, table_at};

use crate::ssdl_lists::table_at;
use crate::ssdl_making::ids::{cols_named, table_id};
use csdl_names::{Lookups, RawAssociation, RawConstraint};
use edm_types::ForeignKey;
use emc_base::{Memory, Seq, TableId, both, put_found};
use std::alloc::Global;

/// The foreign keys, in the order of the document.
pub(super) fn keys_in(
    alloc: Global,
    lookups: &Lookups<'_>,
    tables: &[Option<usize>],
) -> Result<Seq<ForeignKey>, Memory>
    requires { table_in tables.now ≡ table_of (names_in lookups.now.model.now) lookups.now.model.now }
    ensures { IfOk result (λ keys. keys ≡ filter_map (key_of_association lookups.now.model.now) lookups.now.model.now.associations) }
{
    let mut keys = Seq::empty(alloc);
    for association in lookups.model.associations.as_slice() {
        put_found(&mut keys, key_of(alloc, lookups, tables, association)?)?;
    }
    Ok(keys)
}

// The foreign key of an association, where it has a constraint.
fn key_of(
    alloc: Global,
    lookups: &Lookups<'_>,
    tables: &[Option<usize>],
    association: &RawAssociation,
) -> Result<Option<ForeignKey>, Memory>
    requires { table_in tables.now ≡ table_of (names_in lookups.now.model.now) lookups.now.model.now }
    ensures { IfOk result (λ key. key ≡ key_of_association lookups.now.model.now association.now) }
{
    match &association.constraint {
        None => Ok(None),
        Some(constraint) => {
            let key = key_with(alloc, lookups, tables, association, constraint)?;
            Ok(Some(key))
        }
    }
}

// The foreign key of an association with this constraint.
fn key_with(
    alloc: Global,
    lookups: &Lookups<'_>,
    tables: &[Option<usize>],
    association: &RawAssociation,
    constraint: &RawConstraint,
) -> Result<ForeignKey, Memory>
    requires { table_in tables.now ≡ table_of (names_in lookups.now.model.now) lookups.now.model.now }
    ensures { IfOk result (λ key. key ≡ key_meant lookups.now.model.now association.now constraint.now) }
{
    let dependent = lookups.type_of_role(association, &constraint.dependent.role);
    let principal = lookups.type_of_role(association, &constraint.principal.role);
    let from = table_of_type(lookups, tables, dependent)?;
    let to = table_of_type(lookups, tables, principal)?;
    let name = association.name.copy(alloc);
    let from_cols = cols_named(alloc, lookups, dependent, &constraint.dependent.props);
    let to_cols = cols_named(alloc, lookups, principal, &constraint.principal.props);
    let (name, (from_cols, to_cols)) = both(name, both(from_cols, to_cols))?;
    Ok(ForeignKey {
        name,
        from,
        from_cols,
        to,
        to_cols,
    })
}

// The table of a type that may not be found; the first table where there is none.
fn table_of_type(
    lookups: &Lookups<'_>,
    tables: &[Option<usize>],
    ty: Option<usize>,
) -> Result<TableId, Memory>
    requires { table_in tables.now ≡ table_of (names_in lookups.now.model.now) lookups.now.model.now }
    ensures { IfOk result (λ id. id ≡ table_at lookups.now.model.now ty) }
{
    let _model = lookups.model;
    let id = table_id(first_table(tables, ty))?;
    Ok(id)
}

// The place of that table.
fn first_table(tables: &[Option<usize>], ty: Option<usize>) -> usize
    ensures { result ≡ unwrap_or (option_and_then (table_in tables.now) ty) 0 }
{
    let Some(ty) = ty else {
        return 0;
    };
    table_at(tables, ty).unwrap_or(0)
}
