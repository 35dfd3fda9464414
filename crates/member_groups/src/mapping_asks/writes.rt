ghost use Rattle.std.specs.Prelude.{Contains, IfOk};
ghost use Rattle.member_groups.specs.mapping_asks.Adding.{Adds, Each, Tells};
ghost use Rattle.member_groups.specs.mapping_asks.Writes.{WritesBy, IsWriteBy};

use crate::mapping_asks::member::MemberId;
use edm_types::{Fragment, Pair};
use emc_base::{Memory, TableId};
use std::alloc::Global;

/// The numbers of the properties that entity fragments write, each with the column that it is written to.
pub fn writes_of(alloc: Global, fragments: &[Fragment]) -> Result<Vec<(u32, MemberId)>, Memory>
    ensures { IfOk result (λ writes. Tells (Contains writes.items) (Each WritesBy fragments.now)) }
{
    let mut writes = Vec::new(alloc);
    for fragment in fragments {
        add_pairs(&mut writes, fragment.table, fragment.pairs.as_slice())?;
    }
    Ok(writes)
}

// Adds what these pairs of a fragment to this table write.
fn add_pairs(
    writes: &mut Vec<(u32, MemberId)>,
    table: TableId,
    pairs: &[Pair],
) -> Result<(), Memory>
    ensures { IfOk result (λ _. Adds (Each (IsWriteBy table) pairs.now) (Contains writes.old.items) (Contains writes.new.items)) }
{
    for pair in pairs {
        writes.push((pair.prop.index, MemberId::Column(table, pair.col)))?;
    }
    Ok(())
}
