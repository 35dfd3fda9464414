ghost use Rattle.std.specs.Prelude.{◌≡◌, ◌++◌, ◌∷◌, [], IfOk, OnOk, Some};
ghost use Rattle.std.specs.BTreeMap.{get, Updates};
ghost use Rattle.std.specs.Option.{unwrap_or};
ghost use Rattle.std.specs.Ordering.{nat_cmp};

use crate::case_reading::reading::CellPlace;
use emc_base::Memory;
use std::collections::BTreeMap;

/// The place that is noted for a property. This is noted where there is none yet. `Memory` comes where memory ran out.
pub(super) fn first_of(
    firsts: &mut BTreeMap<u32, CellPlace>,
    number: u32,
    place: CellPlace,
) -> Result<CellPlace, Memory>
    ensures first { IfOk result (λ first. first ≡ unwrap_or (get nat_cmp firsts.old number) place) }
    ensures noted { IfOk result (λ first. Updates nat_cmp firsts.old firsts.new number (Some first)) }
{
    Ok(*firsts.entry(number)?.or_insert(place))
}
