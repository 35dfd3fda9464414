ghost use Rattle.std.specs.Prelude.{◌≡◌, ◌↔◌, ◌<◌, ◌≤◌, length, slice_index, IfOk, IsTrue};
ghost use Rattle.graphs.specs.base_chains.Chains.{base_at, IsAncestor, IsUpFrom};
ghost use Rattle.graphs.specs.base_chains.Jumps.{KnowsJumps};
ghost use Rattle.graphs.specs.base_chains.Walks.{IsBasesFirst};

use crate::base_chains::jumping::{depths_of, jumps_of};
use emc_base::Memory;
use std::alloc::Global;
use std::marker::Model;

/// Where types stand in their chains, so that it is told in few steps what stands above a type. Contracts see the bases.
#[derive(Drop)]
pub struct Ancestry<'a> {
    bases: &'a [Option<usize>],
    // How many stand in the chain of each: a root is at 1.
    depths: Vec<usize>,
    // A place above each to jump to; a root's own.
    jumps: Vec<usize>,
}

impl<'a> Model for Ancestry<'a> {
    ghost use Rattle.std.specs.Prelude.{ℕ, length, List, Option};
    ghost use Rattle.graphs.specs.base_chains.Chains.{base_at};
    ghost use Rattle.graphs.specs.base_chains.Jumps.{KnowsJumps};

    ghost Value = { List (Option ℕ) };

    ghost view = { λ a. a.bases.now };

    ghost invariant = { λ a. KnowsJumps (base_at a.bases.now) (length a.bases.now) a.depths.items a.jumps.items };
}

impl<'a> Ancestry<'a> {
    /// What these bases say, by an order in which each type follows its base. The time is linear in their number. `Memory`
    /// comes where memory ran out.
    pub fn of(
        alloc: Global,
        bases: &'a [Option<usize>],
        order: &[usize],
    ) -> Result<Ancestry<'a>, Memory>
        requires order { IsBasesFirst (base_at bases.now) (length bases.now) order.now }
        ensures { IfOk result (λ ancestry. ancestry ≡ bases.now) }
    {
        let depths = depths_of(alloc, bases, order)?;
        let jumps = jumps_of(alloc, bases, order, depths.as_slice())?;
        Ok(Ancestry {
            bases,
            depths,
            jumps,
        })
    }

    /// Whether the second type is the first, or stands above it. The number of steps grows with the logarithm of how deep
    /// the first stands.
    pub fn is_up_from(&self, lower: usize, upper: usize) -> bool
        requires lower { lower < length self.now }
        requires upper { upper < length self.now }
        ensures { IsTrue result ↔ IsUpFrom (base_at self.now) lower upper }
    {
        let wanted = self.depths[upper];
        let mut place = lower;
        while self.depths[place] > wanted {
            place = climb(
                self.bases,
                self.depths.as_slice(),
                self.jumps.as_slice(),
                place,
                wanted,
            );
        }
        place == upper
    }
}

// A place above one that stands deeper than is wanted, itself no less deep: where it jumps to, if that is deep enough, else
// its base.
fn climb(
    bases: &[Option<usize>],
    depths: &[usize],
    jumps: &[usize],
    place: usize,
    wanted: usize,
) -> usize
    requires known { KnowsJumps (base_at bases.now) (length bases.now) depths.now jumps.now }
    requires inside { place < length bases.now }
    requires wanted { 0 < wanted }
    requires deeper { wanted < slice_index depths.now place }
    ensures above { IsAncestor (base_at bases.now) place result }
    ensures deep { wanted ≤ slice_index depths.now result }
{
    let jump = jumps[place];
    if depths[jump] >= wanted {
        return jump;
    }
    let Some(base) = bases[place] else {
        unreachable!()
    };
    base
}
