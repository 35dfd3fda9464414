ghost use Rattle.std.specs.Prelude.{◌≡◌, IfOk};
ghost use Rattle.std.specs.Option.{option_copied};
ghost use Rattle.json_form.specs.Nodes.{part_of};
ghost use Rattle.round_trip.specs.Words.{key_props, props_of};
ghost use Rattle.entity_state.specs.StateTree.{name_of};
ghost use Rattle.data_documents.specs.entity_documents.Names.{independent_at, role_type};
ghost use Rattle.data_documents.specs.entity_documents.Shapes.{value_for};

use crate::shape_faults::value_of_node;
use edm_types::{Assoc, EntityModel};
use emc_base::{AssocId, Memory, PropId, TypeId, Value};
use json_form::Node;
use std::alloc::Global;

/// The properties of a type, inherited ones included.
pub fn props_of(model: &EntityModel, ty: TypeId) -> &[PropId]
    ensures { result.now ≡ props_of model.now ty }
{
    match model.types.get(ty.index as usize) {
        Some(declared) => declared.props.as_slice(),
        None => &[],
    }
}

/// The properties of a type's key.
pub fn key_props(model: &EntityModel, ty: TypeId) -> &[PropId]
    ensures { result.now ≡ key_props model.now ty }
{
    match model.types.get(ty.index as usize) {
        Some(declared) => declared.key.as_slice(),
        None => &[],
    }
}

/// The name of a property.
pub fn name_of(model: &EntityModel, prop: PropId) -> &str
    ensures { result.now ≡ name_of model.now prop }
{
    match model.props.get(prop.index as usize) {
        Some(declared) => declared.name.as_str(),
        None => "",
    }
}

/// The value of a node for a property; `None` where the node is of another form.
pub fn value_for(
    alloc: Global,
    model: &EntityModel,
    prop: PropId,
    node: Node<'_>,
) -> Result<Option<Value>, Memory>
    ensures { IfOk result (λ value. value ≡ value_for model.now prop (part_of node.entry)) }
{
    match model.props.get(prop.index as usize) {
        Some(declared) => value_of_node(alloc, &declared.kind, node),
        None => Ok(None),
    }
}

/// The association of an id, where it is independent.
pub fn independent_at(model: &EntityModel, id: AssocId) -> Option<&Assoc>
    ensures { option_copied result ≡ independent_at model.now id }
{
    let assoc = model.assocs.get(id.index as usize)?;
    if assoc.constraint.is_none() {
        return Some(assoc);
    }
    None
}

/// The type at the end of an association that has this role.
pub fn role_type(assoc: &Assoc, role: &str) -> Option<TypeId>
    ensures { result ≡ role_type assoc.now role.now }
{
    if role == assoc.first.role.as_str() {
        return Some(assoc.first.ty);
    }
    if role == assoc.second.role.as_str() {
        return Some(assoc.second.ty);
    }
    None
}
