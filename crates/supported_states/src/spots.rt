ghost use Rattle.std.specs.Prelude.{◌≡◌, IfOk};
ghost use Rattle.supported_states.specs.Spots.{holds, spot_of, passes};

use emc_base::{Key, Memory, SetId};
use population::PlacedKey;
use std::alloc::Global;
use std::collections::BTreeSet;

/// A key in a set, as it is looked up among others.
#[derive(PartialEq, Eq, PartialOrd, Ord, Drop)]
pub(crate) struct Spot {
    pub(crate) set: u32,
    pub(crate) key: Key,
}

/// Which keys are looked for.
#[derive(Clone, Copy)]
pub(crate) enum Pick<'p> {
    /// This key, in each set.
    At(&'p Key),
    /// Those that were found.
    Among(&'p BTreeSet<Spot>),
}

/// A key in a set, copied. `Memory` comes where memory ran out.
pub(crate) fn spot_of(alloc: Global, placed: &PlacedKey) -> Result<Spot, Memory>
    ensures { IfOk result (λ spot. spot ≡ spot_of placed.now) }
{
    Ok(Spot {
        set: placed.set.index,
        key: placed.key.copy(alloc)?,
    })
}

/// The same key in the same set. `Memory` comes where memory ran out.
pub(crate) fn copy_placed(alloc: Global, placed: &PlacedKey) -> Result<PlacedKey, Memory>
    ensures { IfOk result (λ copy. copy ≡ placed.now) }
{
    Ok(PlacedKey {
        set: placed.set,
        key: placed.key.copy(alloc)?,
    })
}

/// Whether a key in a set is among those that were found.
pub(crate) fn holds(found: &BTreeSet<Spot>, set: SetId, key: Key) -> bool
    ensures { result ≡ holds found.now (record { set = set; key = key }) }
{
    let spot = Spot {
        set: set.index,
        key,
    };
    found.contains(&spot)
}

/// Whether a key in a set is looked for.
pub(crate) fn passes(pick: &Pick<'_>, set: SetId, key: Key) -> bool
    ensures { result ≡ passes pick.now (record { set = set; key = key }) }
{
    match pick {
        Pick::At(own) => key == **own,
        Pick::Among(found) => holds(found, set, key),
    }
}
