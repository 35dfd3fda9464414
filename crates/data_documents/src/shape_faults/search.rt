use crate::shape_faults::place::ShapePlace;
use emc_base::Memory;
use json_form::Node;
use std::alloc::Global;

/// A search for what is wrong with a node.
pub trait NodeSearch {
    ghost use Rattle.std.specs.Prelude.{IfOk, List};
    ghost use Rattle.serde_json.specs.Data.{Data};
    ghost use Rattle.json_form.specs.Nodes.{part_of};
    ghost use Rattle.groupings.specs.least_fault.Least.{IsLeast};
    ghost use Rattle.data_documents.specs.declared.shape_faults.place.ShapeStep.{ShapeStep};
    ghost use Rattle.data_documents.specs.shape_faults.Places.{place_cmp};

    /// At which places something is wrong, seen from the node.
    ghost wrong: { Self → Data → List ShapeStep → Type 0 };

    /// The first of these places. `Memory` comes where memory ran out.
    fn find(&self, alloc: Global, node: Node<'_>) -> Result<Option<ShapePlace>, Memory>
        ensures { IfOk result (λ found. IsLeast place_cmp (wrong self.now (part_of node.entry)) found) };
}

/// A search for what is wrong with a member of an object.
pub trait MemberSearch {
    ghost use Rattle.std.specs.Prelude.{IfOk, List, ℕ};
    ghost use Rattle.serde_json.specs.Data.{Data};
    ghost use Rattle.json_form.specs.Nodes.{part_of};
    ghost use Rattle.groupings.specs.least_fault.Least.{IsLeast};
    ghost use Rattle.data_documents.specs.declared.shape_faults.place.ShapeStep.{ShapeStep};
    ghost use Rattle.data_documents.specs.shape_faults.Places.{place_cmp};

    /// At which places something is wrong with the member of a name, seen from the member.
    ghost wrong: { Self → List ℕ → Data → List ShapeStep → Type 0 };

    /// The first of these places. `Memory` comes where memory ran out.
    fn find(&self, alloc: Global, name: &str, node: Node<'_>) -> Result<Option<ShapePlace>, Memory>
        ensures { IfOk result (λ found. IsLeast place_cmp (wrong self.now name.now (part_of node.entry)) found) };
}
