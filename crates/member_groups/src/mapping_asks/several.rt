ghost use Rattle.std.specs.Prelude.{◌≡◌, Contains, IfOk, Some};
ghost use Rattle.std.specs.BTreeMap.{get, Updates};
ghost use Rattle.std.specs.Option.{unwrap_or};
ghost use Rattle.std.specs.Ordering.{nat_cmp};
ghost use Rattle.member_groups.specs.mapping_asks.Adding.{HasKey, Tells};
ghost use Rattle.member_groups.specs.mapping_asks.Several.{StandsWithTwo};

use crate::mapping_asks::member::MemberId;
use emc_base::Memory;
use std::alloc::Global;
use std::collections::{BTreeMap, BTreeSet};

/// The numbers that stand with two different properties or columns.
pub fn with_several(alloc: Global, entries: &[(u32, MemberId)]) -> Result<BTreeSet<u32>, Memory>
    ensures { IfOk result (λ several. Tells (HasKey several) (StandsWithTwo (Contains entries.now))) }
{
    let mut firsts = BTreeMap::new(alloc);
    let mut several = BTreeSet::new(alloc);
    for (number, member) in entries {
        if first_of(&mut firsts, *number, *member)? != *member {
            several.insert(*number)?;
        }
    }
    Ok(several)
}

// What is noted for a number. This is noted where there is nothing yet.
fn first_of(
    firsts: &mut BTreeMap<u32, MemberId>,
    number: u32,
    member: MemberId,
) -> Result<MemberId, Memory>
    ensures first { IfOk result (λ first. first ≡ unwrap_or (get nat_cmp firsts.old number) member) }
    ensures noted { IfOk result (λ first. Updates nat_cmp firsts.old firsts.new number (Some first)) }
{
    Ok(*firsts.entry(number)?.or_insert(member))
}
