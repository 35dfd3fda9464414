ghost use Rattle.std.specs.Prelude.{IfOk};
ghost use Rattle.groupings.specs.least_fault.Least.{IsLeast};
ghost use Rattle.layouts.specs.Faults.{fault_cmp};
ghost use Rattle.msl_rules.specs.OwnerRules.{BreaksOwnerRules, writers_in};
ghost use Rattle.msl_fragments.specs.msl_owners.AllWriters.{Holds};

use crate::msl_owners::all_writers::AllWriters;
use crate::msl_owners::fragments::add_sets;
use crate::msl_owners::links::add_links;
use emc_base::Memory;
use groupings::earlier;
use layouts::{Fault, Rule};
use msl_rules::RawMapping;
use schema_names::SchemaNames;
use std::alloc::Global;
use table_owners::{first_other_owner, first_other_pairing};

/// The least place at which a set pairs its key otherwise than before (V31), or a table has another owner than before (V32). `Memory` comes where
/// memory ran out.
pub fn first_owner_fault(
    alloc: Global,
    names: &SchemaNames<'_>,
    raw: &RawMapping,
) -> Result<Option<Fault>, Memory>
    ensures { IfOk result (λ found. IsLeast fault_cmp (BreaksOwnerRules names.now.model.now names.now.store.now raw.now) found) }
{
    let all = all_writers(alloc, names, raw)?;
    let other_pairing = first_other_pairing(alloc, all.writers.as_slice())?;
    let pairing = all.fault_at(alloc, Rule::OnePairing, other_pairing)?;
    let other_owner = first_other_owner(alloc, all.writers.as_slice())?;
    let owner = all.fault_at(alloc, Rule::OneOwner, other_owner)?;
    Ok(earlier(pairing, owner))
}

// All that writes a table, in the order of places.
fn all_writers<'a>(
    alloc: Global,
    names: &'a SchemaNames<'a>,
    raw: &'a RawMapping,
) -> Result<AllWriters, Memory>
    ensures { IfOk result (λ all. Holds all (writers_in names.now.model.now names.now.store.now raw.now)) }
{
    let mut all = AllWriters::none(alloc);
    add_links(alloc, &mut all, names, raw)?;
    add_sets(alloc, &mut all, names, raw)?;
    Ok(all)
}
