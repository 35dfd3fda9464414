ghost use Rattle.std.specs.Prelude.{◌≡◌, IfOk};
ghost use Rattle.std.specs.Option.{option_copied};
ghost use Rattle.json_form.specs.Nodes.{part_of};
ghost use Rattle.groupings.specs.least_fault.Least.{IsLeast};
ghost use Rattle.data_documents.specs.shape_faults.Places.{place_cmp};
ghost use Rattle.data_documents.specs.entity_documents.DocShapes.{AreLinksFault, IsDocFault, IsSetFault};

use crate::entity_documents::entity_shape::EntitySearch;
use crate::entity_documents::link_shape::LinkSearch;
use crate::entity_documents::names::ModelNames;
use crate::shape_faults::{MemberSearch, ShapePlace, first_in_array, first_in_object};
use edm_types::{Assoc, EntityModel};
use emc_base::Memory;
use json_form::Node;
use std::alloc::Global;

/// The first place at which the root of an entity document is of another shape; `None` exactly where there is none.
pub fn first_fault(
    alloc: Global,
    names: &ModelNames<'_>,
    root: Node<'_>,
) -> Result<Option<ShapePlace>, Memory>
    ensures { IfOk result (λ found. IsLeast place_cmp (IsDocFault names.now.model.now (part_of root.entry)) found) }
{
    first_in_object(alloc, &SetSearch { names }, root)
}

/// Looks at the members of an entity document.
#[derive(Clone, Copy)]
struct SetSearch<'a> {
    names: &'a ModelNames<'a>,
}

impl<'a> MemberSearch for SetSearch<'a> {
    ghost use Rattle.schema_names.specs.SchemaNames.{set_named};
    ghost use Rattle.data_documents.specs.entity_documents.DocShapes.{IsSetFault};
    ghost use Rattle.data_documents.specs.entity_documents.Names.{independent_named};

    ghost wrong = { λ s name. IsSetFault s.names.now.model.now (set_named s.names.now.model.now name) (independent_named s.names.now.model.now name) };

    fn find(
        &self,
        alloc: Global,
        name: &str,
        node: Node<'_>,
    ) -> Result<Option<ShapePlace>, Memory> {
        let set = self.names.set_named(name);
        let assoc = self.names.independent_named(name)?;
        first_in_set(alloc, self.names, set, assoc, node)
    }
}

// The first place at which a member of the document is of another shape.
fn first_in_set(
    alloc: Global,
    names: &ModelNames<'_>,
    set: Option<usize>,
    assoc: Option<&Assoc>,
    node: Node<'_>,
) -> Result<Option<ShapePlace>, Memory>
    ensures { IfOk result (λ found. IsLeast place_cmp (IsSetFault names.now.model.now set (option_copied assoc.entry) (part_of node.entry)) found) }
{
    match set {
        Some(_) => first_in_array(alloc, &EntitySearch { names }, node),
        None => first_in_links(alloc, names.model, assoc, node),
    }
}

// The same of a member that is of no entity set; it is the member itself, where it is of no association set either.
fn first_in_links(
    alloc: Global,
    model: &EntityModel,
    assoc: Option<&Assoc>,
    node: Node<'_>,
) -> Result<Option<ShapePlace>, Memory>
    ensures { IfOk result (λ found. IsLeast place_cmp (AreLinksFault model.now (option_copied assoc.entry) (part_of node.entry)) found) }
{
    match assoc {
        None => Ok(Some(ShapePlace::here(alloc))),
        Some(assoc) => first_in_array(alloc, &LinkSearch { model, assoc }, node),
    }
}
