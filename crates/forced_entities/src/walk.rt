ghost use Rattle.std.specs.Prelude.{◌∷◌, [], IfOk};
ghost use Rattle.cells.specs.Parts.{AreParts};
ghost use Rattle.region_states.specs.region_basis.BasisOf.{basis_of};
ghost use Rattle.forced_entities.specs.Forced.{AreForced};
ghost use Rattle.forced_entities.specs.Walked.{Finds, IsFound};

use crate::member::Forced;
use crate::spots::{Spot, spot_of};
use crate::stepping::{begun, steps};
use cells::Parts;
use emc_base::{Memory, PropId, Seq};
use regions::Focus;
use std::alloc::Global;
use std::collections::BTreeSet;

/// Entities that were found, each once, in the order in which they were found.
#[derive(Drop)]
pub struct Found {
    members: Vec<Forced>,
    spots: BTreeSet<Spot>,
}

/// The entities that each legal state holds beside an entity of a region in which none of some properties is null, or beside a link: each once, what the
/// focus forces by itself before what that leads to. The entity itself isn't told, unless something leads back to it. `Memory` comes where memory ran out.
pub fn forced(
    alloc: Global,
    parts: &Parts<'_>,
    of: &Focus,
    not_null: &[PropId],
) -> Result<Seq<Forced>, Memory>
    requires { AreParts parts.now }
    ensures { IfOk result (AreForced (basis_of parts.now) of.now not_null.now) }
{
    let mut found = Found {
        members: Vec::new(alloc),
        spots: BTreeSet::new(alloc),
    };
    add_all(alloc, &mut found, begun(alloc, parts, of, not_null)?)?;
    let mut at = 0;
    while at < found.members.len() {
        let led = steps(alloc, parts, &found.members[at])?;
        add_all(alloc, &mut found, led)?;
        at += 1;
    }
    Seq::from_vec(found.members)
}

// Adds entities that weren't found yet.
fn add_all(alloc: Global, found: &mut Found, list: Seq<Forced>) -> Result<(), Memory>
    ensures { IsFound found.old → IfOk result (λ _. Finds list found.old found.new) }
{
    for one in list.into_vec() {
        add(alloc, found, one)?;
    }
    Ok(())
}

// Adds an entity, unless it was found.
fn add(alloc: Global, found: &mut Found, one: Forced) -> Result<(), Memory>
    ensures { IsFound found.old → IfOk result (λ _. Finds (one ∷ []) found.old found.new) }
{
    if found.spots.insert(spot_of(alloc, &one)?)? {
        found.members.push(one)?;
    }
    Ok(())
}
