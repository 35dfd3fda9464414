ghost use Rattle.std.specs.Prelude.{◌≡◌, ◌<◌, [], All, IfOk, length};
ghost use Rattle.row_plans.specs.Waits.{AreEnds, with_arrow};

use crate::waiting::arrows::Arrow;
use emc_base::{Memory, Seq};
use std::alloc::Global;

// For each of so many places the places to which arrows lead from there.
pub(super) fn ends_by_place(
    alloc: Global,
    arrows: &[Arrow],
    count: usize,
) -> Result<Vec<Seq<usize>>, Memory>
    requires { All (λ arrow. arrow.from < count) arrows.now }
    ensures { IfOk result (λ ends. AreEnds count arrows.now ends.items) }
{
    let mut ends = no_ends(alloc, count)?;
    for arrow in arrows {
        add_end(&mut ends, *arrow)?;
    }
    Ok(ends)
}

// For each of so many places none.
fn no_ends(alloc: Global, count: usize) -> Result<Vec<Seq<usize>>, Memory>
    ensures { IfOk result (λ ends. AreEnds count [] ends.items) }
{
    let mut ends = Vec::new(alloc);
    for _place in 0..count {
        ends.push(Seq::empty(alloc))?;
    }
    Ok(ends)
}

// Puts the end of an arrow to those of the place where it begins.
fn add_end(ends: &mut Vec<Seq<usize>>, arrow: Arrow) -> Result<(), Memory>
    requires { arrow.from < length ends.old.items }
    ensures { IfOk result (λ _. ends.new.items ≡ with_arrow ends.old.items arrow) }
{
    let list = &mut ends[arrow.from];
    list.push(arrow.to)
}
