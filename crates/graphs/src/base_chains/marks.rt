ghost use Rattle.std.specs.Prelude.{◌≡◌, ◌<◌, length, IfOk};
ghost use Rattle.graphs.specs.base_chains.Chains.{base_at, IsPlace};
ghost use Rattle.graphs.specs.base_chains.MarksBelow.{IsCarried, TellsMarksBelow};
ghost use Rattle.graphs.specs.base_chains.Walks.{IsBasesFirst};

use emc_base::Memory;
use std::alloc::Global;

/// Which types are marked, or have a marked type below them, by an order in which each follows its base. One pass over the
/// order, from its end. `Memory` comes where memory ran out.
pub fn marked_below(
    alloc: Global,
    bases: &[Option<usize>],
    order: &[usize],
    marks: &[bool],
) -> Result<Vec<bool>, Memory>
    requires alike { length marks.now ≡ length bases.now }
    requires order { IsBasesFirst (base_at bases.now) (length bases.now) order.now }
    ensures { IfOk result (λ told. TellsMarksBelow (base_at bases.now) (length bases.now) marks.now told.items) }
{
    let mut told = marks.to_vec(alloc)?;
    for place in order.iter().rev() {
        carry_mark(&mut told, *place, bases[*place]);
    }
    Ok(told)
}

// Marks the base of a place that is marked.
fn carry_mark(told: &mut Vec<bool>, place: usize, base: Option<usize>)
    requires inside { place < length told.old.items }
    requires above { IsPlace told.old.items base }
    ensures { IsCarried place base told.old.items told.new.items }
{
    if let Some(base) = base {
        told[base] = told[base] || told[place];
    }
}
