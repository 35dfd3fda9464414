ghost use Rattle.std.specs.Prelude.{◌≡◌, IfOk};
ghost use Rattle.groupings.specs.least_fault.Least.{IsLeast};
ghost use Rattle.layouts.specs.Faults.{fault_cmp};
ghost use Rattle.csdl_associations.specs.csdl_association_sets.Told.{AreArrowsOf, BreaksArrows};

use crate::csdl_association_sets::constraints::Constraints;
use csdl_names::{RawAssociationSet, RawModel};
use emc_base::{Memory, Seq};
use graphs::{Arrow, first_on_cycle};
use layouts::{Fault, Rule, fault_on_item};
use std::alloc::Global;

/// The least fault of association sets against V19: the first whose arrow lies on a circle.
pub fn first_arrow_fault(
    alloc: Global,
    model: &RawModel,
    constraints: &Constraints<'_>,
) -> Result<Option<Fault>, Memory>
    requires { constraints.now ≡ model.now }
    ensures { IfOk result (λ found. IsLeast fault_cmp (BreaksArrows model.now) found) }
{
    let container = &model.container;
    let arrows = arrows_of(alloc, constraints, &container.association_sets)?;
    let first = first_on_cycle(alloc, arrows.as_slice(), container.sets.len())?;
    let found = fault_on_item(alloc, Rule::Arrows, "AssociationSet", first)?;
    Ok(found)
}

// The arrow of each association set, if it has one.
fn arrows_of(
    alloc: Global,
    constraints: &Constraints<'_>,
    sets: &Seq<RawAssociationSet>,
) -> Result<Vec<Option<Arrow>>, Memory>
    ensures { IfOk result (λ arrows. AreArrowsOf constraints.now sets.now arrows.items) }
{
    let mut arrows = Vec::new(alloc);
    for set in sets.as_slice() {
        arrows.push(constraints.arrow_of(set))?;
    }
    Ok(arrows)
}
