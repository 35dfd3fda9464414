ghost use Rattle.std.specs.Prelude.{IfOk};
ghost use Rattle.groupings.specs.least_fault.Least.{IsLeast};
ghost use Rattle.layouts.specs.Faults.{fault_cmp};
ghost use Rattle.msl_rules.specs.LinkRules.{IsInLinks};
ghost use Rattle.msl_checks.specs.msl_written.Within.{schema_in};
ghost use Rattle.msl_checks.specs.msl_link_rules.LinkParts.{BreaksRulesOfSet};

use crate::msl_link_rules::of_link::OfLink;
use crate::msl_written::Between;
use emc_base::Memory;
use groupings::{Finder, earlier};
use layouts::{Fault, behind_member, first_at};
use msl_meaning::first_other_association;
use msl_rules::{RawLinkMapping, RawMapping};
use std::alloc::Global;

/// Searches the mappings of association sets.
#[derive(Clone, Copy)]
struct InLinks<'a> {
    between: Between<'a>,
}

/// The mapping of an association set, where the set is found.
impl<'a> Finder<RawLinkMapping, Fault> for InLinks<'a> {
    ghost use Rattle.msl_rules.specs.LinkRules.{IsLinkFault};
    ghost use Rattle.msl_checks.specs.msl_written.Within.{schema_in};

    ghost wrong = { λ s. IsLinkFault (schema_in s.between) };

    fn find(
        &self,
        alloc: Global,
        _: usize,
        item: &RawLinkMapping,
    ) -> Result<Option<Fault>, Memory> {
        let of_set = first_of_set(alloc, &self.between, item)?;
        let other = first_other_association(alloc, self.between.names, item)?;
        Ok(earlier(of_set, other))
    }
}

// The least of all but V40 in the mapping of an association set, where the set is found.
fn first_of_set(
    alloc: Global,
    between: &Between<'_>,
    link: &RawLinkMapping,
) -> Result<Option<Fault>, Memory>
    ensures { IfOk result (λ found. IsLeast fault_cmp (BreaksRulesOfSet (schema_in between.now) link.now) found) }
{
    let names = between.names;
    let Some(set) = names.association_set_named(link.name.as_str()) else {
        return Ok(None);
    };
    let Some(assoc) = names.model.assocs.get(set) else {
        return Ok(None);
    };
    let of_link = OfLink {
        between: *between,
        link,
        set,
        assoc,
    };
    let found = of_link.first_fault(alloc)?;
    Ok(found)
}

/// The least of what is wrong in the mappings of association sets (V29, V30 and V33 to V40). `Memory` comes where memory ran out.
pub fn first_link_fault(
    alloc: Global,
    between: &Between<'_>,
    raw: &RawMapping,
) -> Result<Option<Fault>, Memory>
    ensures { IfOk result (λ found. IsLeast fault_cmp (IsInLinks (schema_in between.now) raw.now) found) }
{
    let search = InLinks { between: *between };
    let links = first_at(alloc, "AssociationSetMapping", &search, &raw.links)?;
    let found = behind_member(alloc, "EntityContainerMapping", links)?;
    Ok(found)
}
