ghost use Rattle.std.specs.Prelude.{◌≡◌, codes, length, IfOk};
ghost use Rattle.json_form.specs.declared.pointer.Step.TheVariants.{Member};
ghost use Rattle.layouts.specs.Inside.{Under};
ghost use Rattle.groupings.specs.least_fault.Least.{IsLeast};
ghost use Rattle.layouts.specs.Faults.{fault_cmp};
ghost use Rattle.graphs.specs.base_chains.Chains.{base_at};
ghost use Rattle.graphs.specs.base_chains.Walks.{IsBasesFirst};
ghost use Rattle.csdl_associations.specs.csdl_association_sets.SetRules.{BreaksSetRules};
ghost use Rattle.csdl_associations.specs.csdl_association_sets.Told.{BreaksContainer, BreaksEndRules, BreaksSets};

use crate::csdl_association_sets::concrete::{ConcreteTypes, first_end_type_fault};
use crate::csdl_association_sets::constraints::Constraints;
use crate::csdl_association_sets::set_arrows::first_arrow_fault;
use crate::csdl_association_sets::set_ends::SetEnds;
use crate::csdl_constraints::Sides;
use csdl_names::Lookups;
use emc_base::Memory;
use groupings::earlier_of;
use layouts::{Fault, behind_member, first_at};
use std::alloc::Global;

/// The least fault of the sets, of association sets, and of what stands at the ends of associations: V14, V15, V18, V19 and
/// V20. In the order each type follows its base, so that none is its own ancestor. `Memory` comes where memory ran out.
pub fn first_set_fault(
    alloc: Global,
    sides: &Sides<'_>,
    order: &[usize],
) -> Result<Option<Fault>, Memory>
    requires order { IsBasesFirst (base_at sides.now.lookups.now.bases.now) (length sides.now.lookups.now.bases.now) order.now }
    ensures { IfOk result (λ found. IsLeast fault_cmp (BreaksSetRules sides.now.lookups.now.model.now) found) }
{
    let types = ConcreteTypes::of(alloc, sides.lookups, order)?;
    let container = first_in_container(alloc, sides, order, &types);
    let ends = first_end_type_fault(alloc, sides.lookups, &types);
    earlier_of(container, ends)
}

// The least fault in the container, seen from the model.
fn first_in_container(
    alloc: Global,
    sides: &Sides<'_>,
    order: &[usize],
    types: &ConcreteTypes<'_>,
) -> Result<Option<Fault>, Memory>
    requires same { types.now ≡ sides.now.lookups.now.model.now }
    requires order { IsBasesFirst (base_at sides.now.lookups.now.bases.now) (length sides.now.lookups.now.bases.now) order.now }
    ensures { IfOk result (IsLeast fault_cmp (Under (Member (codes "EntityContainer")) (BreaksContainer sides.now.lookups.now.model.now))) }
{
    let sets = &sides.lookups.model.container.sets;
    let elements = first_at(alloc, "EntitySet", types, sets);
    let association_sets = first_in_association_sets(alloc, sides, order);
    let found = earlier_of(elements, association_sets)?;
    behind_member(alloc, "EntityContainer", found)
}

// The least fault of association sets.
fn first_in_association_sets(
    alloc: Global,
    sides: &Sides<'_>,
    order: &[usize],
) -> Result<Option<Fault>, Memory>
    requires order { IsBasesFirst (base_at sides.now.lookups.now.bases.now) (length sides.now.lookups.now.bases.now) order.now }
    ensures { IfOk result (λ found. IsLeast fault_cmp (BreaksSets sides.now.lookups.now.model.now) found) }
{
    let constraints = Constraints::of(alloc, sides)?;
    let ends = first_end_fault(alloc, sides.lookups, &constraints, order);
    let arrows = first_arrow_fault(alloc, sides.lookups.model, &constraints);
    earlier_of(ends, arrows)
}

// The least fault of association sets against V15, V18 and V20.
fn first_end_fault(
    alloc: Global,
    lookups: &Lookups<'_>,
    constraints: &Constraints<'_>,
    order: &[usize],
) -> Result<Option<Fault>, Memory>
    requires same { constraints.now ≡ lookups.now.model.now }
    requires order { IsBasesFirst (base_at lookups.now.bases.now) (length lookups.now.bases.now) order.now }
    ensures { IfOk result (λ found. IsLeast fault_cmp (BreaksEndRules lookups.now.model.now) found) }
{
    let search = SetEnds::of(alloc, lookups, constraints, order)?;
    let sets = &lookups.model.container.association_sets;
    let found = first_at(alloc, "AssociationSet", &search, sets);
    drop(search);
    found
}
