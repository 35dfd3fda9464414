ghost use Rattle.std.specs.Prelude.{◌≡◌, [], length, IfOk};
ghost use Rattle.graphs.specs.arrow_cycles.Arrows.{StayWithin};
ghost use Rattle.graphs.specs.arrow_cycles.Ends.{IsEnds, IsFrom, with_arrow};

use emc_base::{Memory, Seq};
use std::alloc::Global;

/// An arrow from one place to another, or to the same.
#[derive(Clone, Copy, Debug, PartialEq, Eq)]
pub struct Arrow {
    /// The place where it begins, counted from 0.
    pub from: usize,
    /// The place where it ends, counted from 0.
    pub to: usize,
}

/// For each of so many places the ends of the arrows that begin there.
pub fn ends_by_place(
    alloc: Global,
    arrows: &[Option<Arrow>],
    count: usize,
) -> Result<Vec<Seq<usize>>, Memory>
    requires within { StayWithin count arrows.now }
    ensures { IfOk result (λ ends. IsEnds count arrows.now ends.items) }
{
    let mut ends = no_ends(alloc, count)?;
    for arrow in arrows {
        add_end(&mut ends, *arrow)?;
    }
    Ok(ends)
}

// No ends, for each of so many places.
fn no_ends(alloc: Global, count: usize) -> Result<Vec<Seq<usize>>, Memory>
    ensures { IfOk result (λ ends. IsEnds count [] ends.items) }
{
    let mut ends = Vec::new(alloc);
    for _place in 0..count {
        ends.push(Seq::empty(alloc))?;
    }
    Ok(ends)
}

// Puts the end of an arrow to those that begin at the same place.
fn add_end(ends: &mut Vec<Seq<usize>>, arrow: Option<Arrow>) -> Result<(), Memory>
    requires { IsFrom (length ends.old.items) arrow }
    ensures { IfOk result (λ _. ends.new.items ≡ with_arrow ends.old.items arrow) }
{
    if let Some(arrow) = arrow {
        let list = &mut ends[arrow.from];
        list.push(arrow.to)?;
    }
    Ok(())
}
