ghost use Rattle.std.specs.Prelude.{length, IfOk};
ghost use Rattle.graphs.specs.arrow_cycles.Ends.{EndWithin, GoesTo};
ghost use Rattle.graphs.specs.arrow_cycles.Numbers.{AreComponents};

use crate::arrow_cycles::search::{Mark, Search};
use emc_base::{Memory, Seq};
use std::alloc::Global;

/// The components of places: those of one number lead to one another, and no arrow leads to a greater number.
pub fn components(alloc: Global, ends: &[Seq<usize>]) -> Result<Vec<Mark>, Memory>
    requires { EndWithin ends.now }
    ensures { IfOk result (λ marks. AreComponents (GoesTo ends.now) (length ends.now) marks.items) }
{
    let mut search = Search::new(alloc, ends)?;
    for place in 0..ends.len() {
        search.visit(ends, place)?;
    }
    Ok(search.marks)
}
