ghost use Rattle.std.specs.Prelude.{◌≡◌, ◌++◌, ◌∷◌, IfOk, List};
ghost use Rattle.schema_laws.specs.state_demand.MadeTables.{distinct};
ghost use Rattle.population.specs.Support.{same_placed};
ghost use Rattle.supported_states.specs.Gathered.{IsGathered};

use crate::spots::{Spot, copy_placed, spot_of};
use emc_base::{Memory, Seq};
use population::PlacedKey;
use std::alloc::Global;
use std::collections::BTreeSet;

/// These keys, each once. `Memory` comes where memory ran out.
pub(crate) fn distinct(alloc: Global, keys: Seq<PlacedKey>) -> Result<Seq<PlacedKey>, Memory>
    ensures { IfOk result (λ once. once ≡ distinct same_placed keys) }
{
    let mut rest = keys.into_vec();
    let mut spots = BTreeSet::new(alloc);
    let mut kept = Vec::new(alloc);
    while let Some(last) = rest.pop() {
        add_new(alloc, &mut spots, &mut kept, last)?;
    }
    kept.reverse();
    Seq::from_vec(kept)
}

// Adds a key, unless it is there.
fn add_new(
    alloc: Global,
    spots: &mut BTreeSet<Spot>,
    kept: &mut Vec<PlacedKey>,
    placed: PlacedKey,
) -> Result<(), Memory>
    ensures { (behind : List PlacedKey) → IsGathered behind spots.old kept.old.items → IfOk result (λ _. IsGathered (placed ∷ behind) spots.new kept.new.items) }
{
    if spots.insert(spot_of(alloc, &placed)?)? {
        kept.push(placed)?;
    }
    Ok(())
}

/// Adds copies of these keys behind others. `Memory` comes where memory ran out.
pub(crate) fn append(
    alloc: Global,
    all: &mut Seq<PlacedKey>,
    keys: &[PlacedKey],
) -> Result<(), Memory>
    ensures { IfOk result (λ _. all.new ≡ all.old ++ keys.now) }
{
    for placed in keys {
        all.push(copy_placed(alloc, placed)?)?;
    }
    Ok(())
}
