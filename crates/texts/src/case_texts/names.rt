ghost use Rattle.std.specs.Prelude.{◌≡◌, [], IfOk, string_bytes};
ghost use Rattle.std.specs.Option.{option_map_or};
ghost use Rattle.round_trip.specs.Words.{type_at};
ghost use Rattle.entity_state.specs.StateTree.{full_name, name_of};
ghost use Rattle.texts.specs.case_texts.Names.{assoc_name, columns_of, role_name, table_name};

use edm_types::{Column, EntityModel, StoreModel};
use emc_base::{AssocId, Memory, PropId, TableId, TypeId};
use region_states::host_end;
use std::alloc::Global;

// The name of a property.
pub(super) fn name_of(model: &EntityModel, prop: PropId) -> &str
    ensures { result.now ≡ name_of model.now prop }
{
    match model.props.get(prop.index as usize) {
        Some(declared) => declared.name.as_str(),
        None => "",
    }
}

// The name of a type, behind its namespace.
pub(super) fn full_name(alloc: Global, model: &EntityModel, ty: TypeId) -> Result<String, Memory>
    ensures { IfOk result (λ name. string_bytes name ≡ full_name model.now ty) }
{
    let namespace = model.namespace.as_str();
    let name = type_name(model, ty);
    Ok(format!(in alloc; "{namespace}.{name}")?)
}

// The name of a type.
fn type_name(model: &EntityModel, ty: TypeId) -> &str
    ensures { result.now ≡ option_map_or (λ type. type.name) (type_at model.now ty) [] }
{
    match model.types.get(ty.index as usize) {
        Some(declared) => declared.name.as_str(),
        None => "",
    }
}

// The name of an association set.
pub(super) fn assoc_name(model: &EntityModel, id: AssocId) -> &str
    ensures { result.now ≡ assoc_name model.now id }
{
    match model.assocs.get(id.index as usize) {
        Some(assoc) => assoc.set_name.as_str(),
        None => "",
    }
}

// The role of an end of an association, the first or the second.
pub(super) fn role_name(model: &EntityModel, id: AssocId, first: bool) -> &str
    ensures { result.now ≡ role_name model.now id first }
{
    match model.assocs.get(id.index as usize) {
        Some(assoc) => host_end(first, assoc).role.as_str(),
        None => "",
    }
}

// The name of a table.
pub(super) fn table_name(store: &StoreModel, id: TableId) -> &str
    ensures { result.now ≡ table_name store.now id }
{
    match store.tables.get(id.index as usize) {
        Some(table) => table.name.as_str(),
        None => "",
    }
}

// The columns of a table.
pub(super) fn columns_of(store: &StoreModel, id: TableId) -> &[Column]
    ensures { result.now ≡ columns_of store.now id }
{
    match store.tables.get(id.index as usize) {
        Some(table) => table.cols.as_slice(),
        None => &[],
    }
}
