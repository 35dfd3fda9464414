ghost use Rattle.std.specs.Prelude.{◌≡◌, IfOk, OnOk, Some};
ghost use Rattle.std.specs.Option.{unwrap_or};
ghost use Rattle.std.specs.BTreeMap.{get, Updates};

use emc_base::Memory;
use std::collections::BTreeMap;

/// The place that is noted for a key. This place is noted where there is none yet.
pub fn first_place<K: Ord + Drop>(
    firsts: &mut BTreeMap<K, usize>,
    key: K,
    place: usize,
) -> Result<usize, Memory>
    ensures first { IfOk result (λ first. first ≡ unwrap_or (get K.cmp firsts.old key) place) }
    ensures noted { IfOk result (λ first. Updates K.cmp firsts.old firsts.new key (Some first)) }
{
    Ok(*firsts.entry(key)?.or_insert(place))
}
