ghost use Rattle.std.specs.Prelude.{◌≡◌, ◌++◌, All, Contains, IfOk, List};
ghost use Rattle.std.specs.List.{AllZip};
ghost use Rattle.round_trip.specs.Words.{ColId, key_props};
ghost use Rattle.schema_laws.specs.state_demand.Owners.{props_in};
ghost use Rattle.query_views.specs.LinkKeys.{AreKeyColumns, IsPairedWith};

use edm_types::{Assoc, EntityModel, LinkFragment, Pair};
use emc_base::{ColId, Memory, PropId, TypeId};
use std::alloc::Global;

/// The columns to which a fragment writes the keys at both ends, one behind the other. `Memory` comes where memory ran out.
pub(super) fn columns_of(
    alloc: Global,
    model: &EntityModel,
    assoc: &Assoc,
    fragment: &LinkFragment,
) -> Result<Vec<ColId>, Memory>
    requires first { All (Contains (props_in fragment.now.first)) (key_props model.now assoc.now.first.ty) }
    requires second { All (Contains (props_in fragment.now.second)) (key_props model.now assoc.now.second.ty) }
    ensures { IfOk result (λ columns. AreKeyColumns model.now assoc.now fragment.now columns.items) }
{
    let mut columns = Vec::new(alloc);
    add_columns(
        &mut columns,
        fragment.first.as_slice(),
        key_props(model, assoc.first.ty),
    )?;
    add_columns(
        &mut columns,
        fragment.second.as_slice(),
        key_props(model, assoc.second.ty),
    )?;
    Ok(columns)
}

// Adds the columns to which these properties are written, in their order.
fn add_columns(columns: &mut Vec<ColId>, pairs: &[Pair], props: &[PropId]) -> Result<(), Memory>
    requires { All (Contains (props_in pairs.now)) props.now }
    ensures { IfOk result (λ _. (added : List ColId) × AllZip (IsPairedWith pairs.now) props.now added × (columns.new.items ≡ columns.old.items ++ added)) }
{
    for prop in props {
        columns.push(column_of(pairs, *prop))?;
    }
    Ok(())
}

// The column to which a property is written.
fn column_of(pairs: &[Pair], prop: PropId) -> ColId
    requires { Contains (props_in pairs.now) prop }
    ensures { IsPairedWith pairs.now prop result }
{
    for pair in pairs {
        if pair.prop == prop {
            return pair.col;
        }
    }
    unreachable!()
}

/// The key of a type.
pub(super) fn key_props(model: &EntityModel, ty: TypeId) -> &[PropId]
    ensures { result.now ≡ key_props model.now ty }
{
    match model.types.get(ty.index as usize) {
        Some(declared) => declared.key.as_slice(),
        None => &[],
    }
}
