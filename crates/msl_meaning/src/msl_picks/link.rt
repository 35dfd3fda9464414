ghost use Rattle.std.specs.Prelude.{◌↔◌, ℕ, IfOk, IsTrue, MatchOption};
ghost use Rattle.groupings.specs.least_fault.Least.{IsLeast};
ghost use Rattle.layouts.specs.Faults.{fault_cmp};
ghost use Rattle.schema_names.specs.SchemaNames.{IsOfAssociation, association_set_named};
ghost use Rattle.msl_rules.specs.NameRules.{IsOtherAssociation};

use emc_base::Memory;
use layouts::{Fault, Rule, fault_if};
use msl_rules::RawLinkMapping;
use schema_names::SchemaNames;
use std::alloc::Global;

/// The TypeName in the mapping of an association set, where it names another association than that of the set; seen from the mapping.
/// `Memory` comes where memory ran out.
pub fn first_other_association(
    alloc: Global,
    names: &SchemaNames<'_>,
    link: &RawLinkMapping,
) -> Result<Option<Fault>, Memory>
    ensures { IfOk result (λ found. (i : ℕ) → IsLeast fault_cmp (IsOtherAssociation names.now.model.now i link.now) found) }
{
    let is_other = is_of_other(names, link);
    let found = fault_if(alloc, is_other, Rule::MappedAssociation, "TypeName")?;
    Ok(found)
}

// Whether the association set is of another association than the one that is named.
fn is_of_other(names: &SchemaNames<'_>, link: &RawLinkMapping) -> bool
    ensures { IsTrue result ↔ MatchOption (association_set_named names.now.model.now link.now.name) ⊥ (λ a. ¬ IsOfAssociation names.now.model.now a link.now.association) }
{
    let Some(set) = names.association_set_named(link.name.as_str()) else {
        return false;
    };
    !names.is_of_association(set, link.association.as_str())
}
