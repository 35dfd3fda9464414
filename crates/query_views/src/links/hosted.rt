ghost use Rattle.std.specs.Prelude.{◌≡◌, ◌++◌, All, IfOk};
ghost use Rattle.case_laws.specs.candidates.Rows.{shown_rows};
ghost use Rattle.query_cases.specs.case_reading.Links.{HasPlace};
ghost use Rattle.query_views.specs.LinkKeys.{HaveLinkCells, host_keys, hosted_keys, keys_hosted_by, shown_keys};
ghost use Rattle.query_views.specs.Lent.{shown_values};

use crate::lending::LentEntity;
use crate::links::keys::both_keys;
use emc_base::{AssocId, Memory, Value};
use query_cases::LinkReading;
use std::alloc::Global;

/// The keys of the links of an association that entities host, in the order of the entities. `Memory` comes where memory ran out.
pub(super) fn hosted_keys<'t>(
    alloc: Global,
    entities: &[LentEntity<'t>],
    assoc: AssocId,
    first_hosts: bool,
) -> Result<Vec<(Vec<&'t Value>, ())>, Memory>
    requires { All HaveLinkCells entities.now }
    ensures { IfOk result (λ keyed. shown_keys keyed.items ≡ hosted_keys assoc first_hosts entities.now) }
{
    let mut keyed = Vec::new(alloc);
    for entity in entities {
        add_keys(alloc, &mut keyed, entity, assoc, first_hosts)?;
    }
    Ok(keyed)
}

// Adds those of one entity.
fn add_keys<'t>(
    alloc: Global,
    keyed: &mut Vec<(Vec<&'t Value>, ())>,
    entity: &LentEntity<'t>,
    assoc: AssocId,
    first_hosts: bool,
) -> Result<(), Memory>
    requires { HaveLinkCells entity.now }
    ensures { IfOk result (λ _. shown_keys keyed.new.items ≡ shown_keys keyed.old.items ++ keys_hosted_by assoc first_hosts entity.now) }
{
    for link in entity.met.reading.links() {
        if link.assoc.index == assoc.index {
            keyed.push((host_keys(alloc, entity, link, first_hosts)?, ()))?;
        }
    }
    Ok(())
}

// The keys of a link that an entity hosts.
fn host_keys<'t>(
    alloc: Global,
    entity: &LentEntity<'t>,
    link: &LinkReading,
    first_hosts: bool,
) -> Result<Vec<&'t Value>, Memory>
    requires { All (HasPlace (shown_rows entity.now.rows.items)) link.now.parts }
    ensures { IfOk result (λ both. shown_values both.items ≡ host_keys first_hosts entity.now link.now) }
{
    let partner = link.partner(alloc, entity.rows.as_slice())?;
    if first_hosts {
        both_keys(alloc, entity.key.as_slice(), partner.as_slice())
    } else {
        both_keys(alloc, partner.as_slice(), entity.key.as_slice())
    }
}
