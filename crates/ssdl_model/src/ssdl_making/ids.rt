ghost use Rattle.std.specs.Prelude.{◌≡◌, IfOk, option_map};
ghost use Rattle.std.specs.List.{filter_map};
ghost use Rattle.ssdl_model.specs.ssdl_making.StoreMeaning.{col_named, col_numbered, cols_named, table_numbered};

use csdl_names::{Lookups, PropPlace};
use emc_base::{ColId, Memory, Seq, TableId, Txt, narrow, put_found};
use std::alloc::Global;

/// The id of the table at a place.
pub(super) fn table_id(place: usize) -> Result<TableId, Memory>
    ensures { IfOk result (λ id. id ≡ table_numbered place) }
{
    let index = narrow(place)?;
    Ok(TableId { index })
}

// The id of the column at a place, where there is one.
fn col_id(found: Option<PropPlace>) -> Result<Option<ColId>, Memory>
    ensures { IfOk result (λ id. id ≡ option_map (λ place. col_numbered place.place) found) }
{
    let Some(found) = found else {
        return Ok(None);
    };
    let index = narrow(found.place)?;
    Ok(Some(ColId { index }))
}

/// The columns of these names of a type that may not be found.
pub(super) fn cols_named(
    alloc: Global,
    lookups: &Lookups<'_>,
    ty: Option<usize>,
    names: &Seq<Txt>,
) -> Result<Seq<ColId>, Memory>
    ensures { IfOk result (λ cols. cols ≡ cols_named lookups.now.model.now ty names.now) }
{
    match ty {
        None => Ok(Seq::empty(alloc)),
        Some(ty) => {
            let cols = cols_in(alloc, lookups, ty, names)?;
            Ok(cols)
        }
    }
}

/// The columns of these names of the type at a place.
pub(super) fn cols_in(
    alloc: Global,
    lookups: &Lookups<'_>,
    ty: usize,
    names: &Seq<Txt>,
) -> Result<Seq<ColId>, Memory>
    ensures { IfOk result (λ cols. cols ≡ filter_map (col_named lookups.now.model.now ty) names.now) }
{
    let mut cols = Seq::empty(alloc);
    for name in names.as_slice() {
        put_found(&mut cols, col_id(lookups.own_prop(ty, name))?)?;
    }
    Ok(cols)
}
