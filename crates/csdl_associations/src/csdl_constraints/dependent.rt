ghost use Rattle.std.specs.Prelude.{◌≡◌, IfOk};
ghost use Rattle.csdl_names.specs.csdl_lists.References.{names_in};
ghost use Rattle.csdl_associations.specs.csdl_constraints.Told.{AreDependents, AreToldOf, IsToldOf};

use crate::csdl_constraints::sides::Sides;
use csdl_names::RawAssociation;
use emc_base::Memory;
use std::alloc::Global;

/// What is known of the Dependent of a constraint.
#[derive(Clone, Copy, Debug, PartialEq, Eq)]
pub struct Dependent {
    /// One of its properties is in the key of its type.
    pub has_key_prop: bool,
    /// One of its properties may be null.
    pub has_nullable: bool,
}

/// Of each association what is known of its Dependent, in the order of the document; `None` exactly without a constraint. `Memory` comes
/// where memory ran out.
pub fn dependents(alloc: Global, sides: &Sides<'_>) -> Result<Vec<Option<Dependent>>, Memory>
    ensures { IfOk result (λ told. AreDependents sides.now.lookups.now.model.now told.items) }
{
    let told = told_of(alloc, sides, sides.lookups.model.associations.as_slice())?;
    Ok(told)
}

// The same of these associations.
fn told_of(
    alloc: Global,
    sides: &Sides<'_>,
    associations: &[RawAssociation],
) -> Result<Vec<Option<Dependent>>, Memory>
    ensures { IfOk result (λ told. AreToldOf (names_in sides.now.lookups.now.model.now) sides.now.lookups.now.model.now associations.now told.items) }
{
    let mut told = Vec::new(alloc);
    for association in associations {
        told.push(dependent_of(sides, association))?;
    }
    Ok(told)
}

// What is known of the Dependent of an association.
fn dependent_of(sides: &Sides<'_>, association: &RawAssociation) -> Option<Dependent>
    ensures { IsToldOf (names_in sides.now.lookups.now.model.now) sides.now.lookups.now.model.now association.now result }
{
    let dependent = &association.constraint.as_ref()?.dependent;
    Some(Dependent {
        has_key_prop: sides.has_key_prop(association, dependent),
        has_nullable: sides.has_nullable(association, dependent),
    })
}
