ghost use Rattle.std.specs.Prelude.{◌≡◌, ◌↔◌, ◌∷◌, [], None, Option, IfOk, IsTrue, option_map};
ghost use Rattle.std.specs.Option.{option_copied};
ghost use Rattle.serde_json.specs.Data.{Data};
ghost use Rattle.json_form.specs.Nodes.{part_of};
ghost use Rattle.groupings.specs.least_fault.Least.{IsLeast};
ghost use Rattle.data_documents.specs.shape_faults.Places.{place_cmp};
ghost use Rattle.data_documents.specs.entity_documents.Shapes.{IsKeyArray, IsKeyFault, IsLinkFault, IsLinkFaultBy, IsRoleFault};

use crate::entity_documents::members::{key_props, role_type, value_for};
use crate::shape_faults::{
    MemberSearch, NodeSearch, ShapePlace, ShapeStep, first_in_object, first_lack,
};
use edm_types::{Assoc, EntityModel};
use emc_base::{Memory, PropId, TypeId};
use groupings::{Finder, earlier, first_among};
use json_form::Node;
use std::alloc::Global;

/// The first place at which the array of a key is of another shape; `None` exactly where there is none.
pub fn first_in_key(
    alloc: Global,
    model: &EntityModel,
    ty: TypeId,
    node: Node<'_>,
) -> Result<Option<ShapePlace>, Memory>
    ensures { IfOk result (λ found. IsLeast place_cmp (IsKeyFault model.now ty (part_of node.entry)) found) }
{
    if !is_key_array(model, ty, node) {
        return Ok(Some(ShapePlace::here(alloc)));
    }
    first_among(alloc, &PartSearch { model, node }, key_props(model, ty))
}

// Whether the node is an array of just as many items as the key of the type has properties.
fn is_key_array(model: &EntityModel, ty: TypeId, node: Node<'_>) -> bool
    ensures { IsTrue result ↔ IsKeyArray model.now ty (part_of node.entry) }
{
    node.is_array() && node.items().len() == key_props(model, ty).len()
}

/// Looks at the items of a key's array.
#[derive(Clone, Copy)]
struct PartSearch<'a> {
    model: &'a EntityModel,
    node: Node<'a>,
}

impl<'a> Finder<PropId, ShapePlace> for PartSearch<'a> {
    ghost use Rattle.json_form.specs.Nodes.{part_of};
    ghost use Rattle.json_form.specs.TreeParts.{items_in};
    ghost use Rattle.data_documents.specs.entity_documents.Shapes.{IsPartFault};

    ghost wrong = { λ s. IsPartFault s.model.now (items_in (part_of s.node)) };

    fn find(
        &self,
        alloc: Global,
        place: usize,
        prop: &PropId,
    ) -> Result<Option<ShapePlace>, Memory> {
        let Some(part) = self.node.item(place) else {
            return Ok(None);
        };
        if value_for(alloc, self.model, *prop, part)?.is_some() {
            return Ok(None);
        }
        let Ok(step) = u32::try_from(place) else {
            return Err(Memory);
        };
        let seen = ShapePlace::here(alloc).after(ShapeStep::Item(step))?;
        Ok(Some(seen))
    }
}

/// The first place at which a link object is of another shape, where the association may be none.
pub fn first_in_link(
    alloc: Global,
    model: &EntityModel,
    assoc: Option<&Assoc>,
    node: Node<'_>,
) -> Result<Option<ShapePlace>, Memory>
    ensures { IfOk result (λ found. IsLeast place_cmp (IsLinkFaultBy model.now (option_copied assoc.entry) (part_of node.entry)) found) }
{
    match assoc {
        None => Ok(Some(ShapePlace::here(alloc))),
        Some(assoc) => first_in_link_of(alloc, model, assoc, node),
    }
}

// The same of an association.
fn first_in_link_of(
    alloc: Global,
    model: &EntityModel,
    assoc: &Assoc,
    node: Node<'_>,
) -> Result<Option<ShapePlace>, Memory>
    ensures { IfOk result (λ found. IsLeast place_cmp (IsLinkFault model.now assoc.now (part_of node.entry)) found) }
{
    let inside = first_in_object(alloc, &RoleSearch { model, assoc }, node)?;
    let first = first_lack(alloc, 0, assoc.first.role.as_str(), node)?;
    let second = first_lack(alloc, 1, assoc.second.role.as_str(), node)?;
    Ok(earlier(inside, earlier(first, second)))
}

/// Looks at the links of an association.
#[derive(Clone, Copy)]
pub struct LinkSearch<'a> {
    pub model: &'a EntityModel,
    pub assoc: &'a Assoc,
}

impl<'a> NodeSearch for LinkSearch<'a> {
    ghost use Rattle.data_documents.specs.entity_documents.Shapes.{IsLinkFault};

    ghost wrong = { λ s. IsLinkFault s.model.now s.assoc.now };

    fn find(&self, alloc: Global, node: Node<'_>) -> Result<Option<ShapePlace>, Memory> {
        first_in_link_of(alloc, self.model, self.assoc, node)
    }
}

/// Looks at the members of a link object.
#[derive(Clone, Copy)]
struct RoleSearch<'a> {
    model: &'a EntityModel,
    assoc: &'a Assoc,
}

impl<'a> MemberSearch for RoleSearch<'a> {
    ghost use Rattle.data_documents.specs.entity_documents.Names.{role_type};
    ghost use Rattle.data_documents.specs.entity_documents.Shapes.{IsRoleFault};

    ghost wrong = { λ s name. IsRoleFault s.model.now (role_type s.assoc.now name) };

    fn find(
        &self,
        alloc: Global,
        name: &str,
        node: Node<'_>,
    ) -> Result<Option<ShapePlace>, Memory> {
        first_in_role(alloc, self.model, role_type(self.assoc, name), node)
    }
}

// The first place at which the member of a role is of another shape; the member itself, where there is no such role.
fn first_in_role(
    alloc: Global,
    model: &EntityModel,
    ty: Option<TypeId>,
    node: Node<'_>,
) -> Result<Option<ShapePlace>, Memory>
    ensures { IfOk result (λ found. IsLeast place_cmp (IsRoleFault model.now ty (part_of node.entry)) found) }
{
    match ty {
        None => Ok(Some(ShapePlace::here(alloc))),
        Some(ty) => first_in_key(alloc, model, ty, node),
    }
}
