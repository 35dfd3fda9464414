ghost use Rattle.std.specs.Prelude.{◌≡◌, IfOk};
ghost use Rattle.json_form.specs.Nodes.{part_of};
ghost use Rattle.groupings.specs.least_fault.Least.{IsLeast};
ghost use Rattle.data_documents.specs.shape_faults.Places.{place_cmp};
ghost use Rattle.data_documents.specs.change_documents.Shapes.{IsChangeFault, IsDocFault, IsMemberFault, IsOperationFault, IsSetKeyFault, IsSetLinkFault, IsToldFault, IsUntoldFault};

use crate::change_documents::operation::{
    Member, Operation, member_named, operation_in, told_member,
};
use crate::change_documents::sets::{element_of, link_set_in, names_set, set_in};
use crate::entity_documents::{
    ModelNames, first_in_entity, first_in_key, first_in_link, independent_at,
};
use crate::shape_faults::{
    MemberSearch, NodeSearch, ShapePlace, first_in_array, first_in_object, first_lack, here_if,
};
use edm_types::EntityModel;
use emc_base::{AssocId, Memory, SetId};
use groupings::earlier;
use json_form::Node;
use std::alloc::Global;

/// The first place at which the root of a change document is of another shape; `None` exactly where there is none.
pub fn first_fault(
    alloc: Global,
    names: &ModelNames<'_>,
    root: Node<'_>,
) -> Result<Option<ShapePlace>, Memory>
    ensures { IfOk result (λ found. IsLeast place_cmp (IsDocFault names.now.model.now (part_of root.entry)) found) }
{
    first_in_array(alloc, &ChangeSearch { names }, root)
}

/// Looks at changes.
#[derive(Clone, Copy)]
struct ChangeSearch<'a> {
    names: &'a ModelNames<'a>,
}

impl<'a> NodeSearch for ChangeSearch<'a> {
    ghost use Rattle.data_documents.specs.change_documents.Shapes.{IsChangeFault};

    ghost wrong = { λ s. IsChangeFault s.names.now.model.now };

    fn find(&self, alloc: Global, node: Node<'_>) -> Result<Option<ShapePlace>, Memory> {
        first_in_change(alloc, self.names, node)
    }
}

// The first place at which a change is of another shape.
fn first_in_change(
    alloc: Global,
    names: &ModelNames<'_>,
    node: Node<'_>,
) -> Result<Option<ShapePlace>, Memory>
    ensures { IfOk result (λ found. IsLeast place_cmp (IsChangeFault names.now.model.now (part_of node.entry)) found) }
{
    match operation_in(node) {
        None => first_in_untold(alloc, node),
        Some(operation) => first_in_operation(alloc, names, operation, node),
    }
}

// The same of a change that tells no operation.
fn first_in_untold(alloc: Global, node: Node<'_>) -> Result<Option<ShapePlace>, Memory>
    ensures { IfOk result (λ found. IsLeast place_cmp (IsUntoldFault (part_of node.entry)) found) }
{
    let inside = first_in_object(alloc, &OperationSearch {}, node)?;
    let missing = first_lack(alloc, 0, "op", node)?;
    Ok(earlier(inside, missing))
}

// The same of a change of this operation.
fn first_in_operation(
    alloc: Global,
    names: &ModelNames<'_>,
    operation: Operation,
    node: Node<'_>,
) -> Result<Option<ShapePlace>, Memory>
    ensures { IfOk result (λ found. IsLeast place_cmp (IsOperationFault names.now.model.now operation (part_of node.entry)) found) }
{
    let search = PartSearch {
        names,
        operation,
        change: node,
    };
    let inside = first_in_object(alloc, &search, node)?;
    let set = first_lack(alloc, 1, "set", node)?;
    let told = first_lack(alloc, 2, told_member(operation), node)?;
    Ok(earlier(inside, earlier(set, told)))
}

/// Looks for the member that should tell the operation, where it tells none.
#[derive(Clone, Copy)]
struct OperationSearch {}

impl MemberSearch for OperationSearch {
    ghost use Rattle.std.specs.Prelude.{◌≡◌, [], codes};

    ghost wrong = { λ s name part inside. (name ≡ codes "op") × (inside ≡ []) };

    fn find(
        &self,
        alloc: Global,
        name: &str,
        _node: Node<'_>,
    ) -> Result<Option<ShapePlace>, Memory> {
        Ok(here_if(alloc, name == "op"))
    }
}

/// Looks at the members of a change of an operation.
#[derive(Clone, Copy)]
struct PartSearch<'a> {
    names: &'a ModelNames<'a>,
    operation: Operation,
    change: Node<'a>,
}

impl<'a> MemberSearch for PartSearch<'a> {
    ghost use Rattle.json_form.specs.Nodes.{part_of};
    ghost use Rattle.data_documents.specs.change_documents.Names.{member_named};
    ghost use Rattle.data_documents.specs.change_documents.Shapes.{IsMemberFault};

    ghost wrong = { λ s name. IsMemberFault s.names.now.model.now s.operation (part_of s.change) (member_named s.operation name) };

    fn find(
        &self,
        alloc: Global,
        name: &str,
        node: Node<'_>,
    ) -> Result<Option<ShapePlace>, Memory> {
        let member = member_named(self.operation, name);
        first_in_part(alloc, self.names, self.operation, self.change, member, node)
    }
}

// The first place at which a member of a change is of another shape.
fn first_in_part(
    alloc: Global,
    names: &ModelNames<'_>,
    operation: Operation,
    change: Node<'_>,
    member: Member,
    node: Node<'_>,
) -> Result<Option<ShapePlace>, Memory>
    ensures { IfOk result (λ found. IsLeast place_cmp (IsMemberFault names.now.model.now operation (part_of change.entry) member (part_of node.entry)) found) }
{
    match member {
        Member::Operation => Ok(None),
        Member::Set => Ok(here_if(alloc, !names_set(names, operation, change)?)),
        Member::Told => first_in_told(alloc, names, operation, change, node),
        Member::Other => Ok(Some(ShapePlace::here(alloc))),
    }
}

// The same of the entity, the key or the link.
fn first_in_told(
    alloc: Global,
    names: &ModelNames<'_>,
    operation: Operation,
    change: Node<'_>,
    node: Node<'_>,
) -> Result<Option<ShapePlace>, Memory>
    ensures { IfOk result (λ found. IsLeast place_cmp (IsToldFault names.now.model.now operation (part_of change.entry) (part_of node.entry)) found) }
{
    match operation {
        Operation::Insert | Operation::Update => first_in_entity(alloc, names, node),
        Operation::Delete => first_in_set_key(alloc, names.model, set_in(names, change)?, node),
        Operation::Link | Operation::Unlink => {
            first_in_set_link(alloc, names.model, link_set_in(names, change)?, node)
        }
    }
}

// The same of the key of an entity of a set.
fn first_in_set_key(
    alloc: Global,
    model: &EntityModel,
    set: Option<SetId>,
    node: Node<'_>,
) -> Result<Option<ShapePlace>, Memory>
    ensures { IfOk result (λ found. IsLeast place_cmp (IsSetKeyFault model.now set (part_of node.entry)) found) }
{
    match set {
        None => Ok(None),
        Some(set) => first_in_key(alloc, model, element_of(model, set), node),
    }
}

// The same of a link of an association set.
fn first_in_set_link(
    alloc: Global,
    model: &EntityModel,
    set: Option<AssocId>,
    node: Node<'_>,
) -> Result<Option<ShapePlace>, Memory>
    ensures { IfOk result (λ found. IsLeast place_cmp (IsSetLinkFault model.now set (part_of node.entry)) found) }
{
    match set {
        None => Ok(None),
        Some(set) => first_in_link(alloc, model, independent_at(model, set), node),
    }
}
