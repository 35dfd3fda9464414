ghost use Rattle.std.specs.Prelude.{◌↔◌, IfOk, IsTrue, MatchBool};
ghost use Rattle.std.specs.Ordering.{nat_cmp};
ghost use Rattle.groupings.specs.least_fault.Least.{IsLeast};
ghost use Rattle.table_owners.specs.table_writers.Writers.{AreAmong, HoldSame, IsOtherPairing, PairsOtherwise};

use crate::table_writers::firsts::first_place;
use crate::table_writers::writer::Writer;
use edm_types::Pair;
use emc_base::Memory;
use std::alloc::Global;
use std::collections::BTreeMap;

/// The first writer that pairs the key of its table otherwise than an earlier one of the same table and owner. Each writer
/// is compared with the first of its table and owner alone. `Memory` comes where memory ran out.
pub fn first_other_pairing(alloc: Global, writers: &[Writer]) -> Result<Option<usize>, Memory>
    ensures { IfOk result (IsLeast nat_cmp (PairsOtherwise writers.now)) }
{
    let mut firsts = BTreeMap::new(alloc);
    for (place, writer) in writers.iter().enumerate() {
        let first = first_place(&mut firsts, writer.ownership(), place)?;
        if !hold_same(writers[first].key.as_slice(), writer.key.as_slice()) {
            return Ok(Some(place));
        }
    }
    Ok(None)
}

// Whether two lists hold the same pairs.
fn hold_same(one: &[Pair], other: &[Pair]) -> bool
    ensures { MatchBool result (HoldSame one.now other.now) (IsOtherPairing one.now other.now) }
{
    are_among(one, other) && are_among(other, one)
}

// Whether each of some pairs stands among others.
fn are_among(pairs: &[Pair], others: &[Pair]) -> bool
    ensures { IsTrue result ↔ AreAmong pairs.now others.now }
{
    pairs.iter().all(|pair| others.contains(pair))
}
