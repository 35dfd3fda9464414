ghost use Rattle.std.specs.Prelude.{◌≡◌, IfOk};
ghost use Rattle.csdl_names.specs.csdl_lists.References.{names_in};
ghost use Rattle.csdl_associations.specs.csdl_constraints.Answered.{AreNamed};

use crate::csdl_constraints::marks::{Marking, marks_of};
use csdl_names::{Lookups, RawAssociationSet};
use emc_base::Memory;
use std::alloc::Global;

/// A set marks the association that it names.
#[derive(Drop)]
struct Named<'a> {
    lookups: &'a Lookups<'a>,
}

impl<'a> Marking for Named<'a> {
    ghost use Rattle.std.specs.Prelude.{Some};

    ghost marks = { λ s set i. (names_in s.lookups.now.model.now).association_named set.association ≡ Some i };

    fn place(&self, set: &RawAssociationSet) -> Option<usize> {
        self.lookups.association_named(&set.association)
    }
}

/// Of each association whether some association set names it, in the order of the document. `Memory` comes where memory ran out.
pub fn named_associations(alloc: Global, lookups: &Lookups<'_>) -> Result<Vec<bool>, Memory>
    ensures { IfOk result (λ named. AreNamed lookups.now.model.now named.items) }
{
    let named = marks_of(
        alloc,
        lookups.model.associations.len(),
        &Named { lookups: &*lookups },
        lookups.model.container.association_sets.as_slice(),
    )?;
    Ok(named)
}
