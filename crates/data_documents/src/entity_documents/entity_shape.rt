ghost use Rattle.std.specs.Prelude.{◌≡◌, IfOk};
ghost use Rattle.json_form.specs.Nodes.{part_of};
ghost use Rattle.groupings.specs.least_fault.Least.{IsLeast};
ghost use Rattle.data_documents.specs.shape_faults.Places.{place_cmp};
ghost use Rattle.data_documents.specs.entity_documents.Shapes.{IsEntityFault, IsTypedFault, IsUntypedFault, IsValueFault};

use crate::entity_documents::members::{name_of, props_of, value_for};
use crate::entity_documents::names::ModelNames;
use crate::shape_faults::{
    MemberSearch, NodeSearch, ShapePlace, first_in_object, first_lack, here_if,
};
use edm_types::EntityModel;
use emc_base::{Memory, PropId, TypeId};
use groupings::{Finder, earlier, first_among};
use json_form::Node;
use std::alloc::Global;

/// The first place at which an entity object is of another shape; `None` exactly where there is none.
pub fn first_in_entity(
    alloc: Global,
    names: &ModelNames<'_>,
    node: Node<'_>,
) -> Result<Option<ShapePlace>, Memory>
    ensures { IfOk result (λ found. IsLeast place_cmp (IsEntityFault names.now.model.now (part_of node.entry)) found) }
{
    match names.type_in(node)? {
        None => first_in_untyped(alloc, node),
        Some(ty) => first_in_typed(alloc, names, ty, node),
    }
}

// The same of an object that tells no type.
fn first_in_untyped(alloc: Global, node: Node<'_>) -> Result<Option<ShapePlace>, Memory>
    ensures { IfOk result (λ found. IsLeast place_cmp (IsUntypedFault (part_of node.entry)) found) }
{
    let inside = first_in_object(alloc, &TypeSearch {}, node)?;
    let missing = first_lack(alloc, 0, "$type", node)?;
    Ok(earlier(inside, missing))
}

// The same of an object of this type.
fn first_in_typed(
    alloc: Global,
    names: &ModelNames<'_>,
    ty: TypeId,
    node: Node<'_>,
) -> Result<Option<ShapePlace>, Memory>
    ensures { IfOk result (λ found. IsLeast place_cmp (IsTypedFault names.now.model.now ty (part_of node.entry)) found) }
{
    let model = names.model;
    let inside = first_in_object(alloc, &ValueSearch { names, ty }, node)?;
    let missing = first_among(alloc, &LackSearch { model, node }, props_of(model, ty))?;
    Ok(earlier(inside, missing))
}

/// Looks at entity objects.
#[derive(Clone, Copy)]
pub struct EntitySearch<'a> {
    pub names: &'a ModelNames<'a>,
}

impl<'a> NodeSearch for EntitySearch<'a> {
    ghost use Rattle.data_documents.specs.entity_documents.Shapes.{IsEntityFault};

    ghost wrong = { λ s. IsEntityFault s.names.now.model.now };

    fn find(&self, alloc: Global, node: Node<'_>) -> Result<Option<ShapePlace>, Memory> {
        first_in_entity(alloc, self.names, node)
    }
}

/// Looks for the member that should tell the type, where it tells none.
#[derive(Clone, Copy)]
struct TypeSearch {}

impl MemberSearch for TypeSearch {
    ghost use Rattle.std.specs.Prelude.{◌≡◌, []};
    ghost use Rattle.data_documents.specs.entity_documents.Names.{type_member};

    ghost wrong = { λ s name part inside. (name ≡ type_member) × (inside ≡ []) };

    fn find(
        &self,
        alloc: Global,
        name: &str,
        _node: Node<'_>,
    ) -> Result<Option<ShapePlace>, Memory> {
        Ok(here_if(alloc, name == "$type"))
    }
}

/// Looks at the members of an entity object of a type.
#[derive(Clone, Copy)]
struct ValueSearch<'a> {
    names: &'a ModelNames<'a>,
    ty: TypeId,
}

impl<'a> MemberSearch for ValueSearch<'a> {
    ghost use Rattle.data_documents.specs.entity_documents.Shapes.{IsMemberFault};

    ghost wrong = { λ s. IsMemberFault s.names.now.model.now s.ty };

    fn find(
        &self,
        alloc: Global,
        name: &str,
        node: Node<'_>,
    ) -> Result<Option<ShapePlace>, Memory> {
        if name == "$type" {
            return Ok(None);
        }
        let names = self.names;
        first_in_value(alloc, names.model, names.prop_named(self.ty, name), node)
    }
}

// The member of an entity object, where it is that of no property, or of another form.
fn first_in_value(
    alloc: Global,
    model: &EntityModel,
    prop: Option<PropId>,
    node: Node<'_>,
) -> Result<Option<ShapePlace>, Memory>
    ensures { IfOk result (λ found. IsLeast place_cmp (IsValueFault model.now prop (part_of node.entry)) found) }
{
    let Some(prop) = prop else {
        return Ok(Some(ShapePlace::here(alloc)));
    };
    let value = value_for(alloc, model, prop, node)?;
    Ok(here_if(alloc, value.is_none()))
}

/// Looks for properties that an entity object has no member for.
#[derive(Clone, Copy)]
struct LackSearch<'a> {
    model: &'a EntityModel,
    node: Node<'a>,
}

impl<'a> Finder<PropId, ShapePlace> for LackSearch<'a> {
    ghost use Rattle.json_form.specs.Nodes.{part_of};
    ghost use Rattle.data_documents.specs.shape_faults.Nodes.{IsLack};
    ghost use Rattle.entity_state.specs.StateTree.{name_of};

    ghost wrong = { λ s rank prop. IsLack rank (name_of s.model.now prop) (part_of s.node) };

    fn find(
        &self,
        alloc: Global,
        place: usize,
        prop: &PropId,
    ) -> Result<Option<ShapePlace>, Memory> {
        first_lack(alloc, place, name_of(self.model, *prop), self.node)
    }
}
