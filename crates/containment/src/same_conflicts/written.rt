ghost use Rattle.std.specs.Prelude.{IfOk};
ghost use Rattle.cells.specs.Parts.{AreParts};
ghost use Rattle.region_states.specs.region_basis.BasisOf.{basis_of};
ghost use Rattle.containment.specs.same_conflicts.Written.{AreWritten};

use cells::Parts;
use emc_base::Memory;
use regions::{Pattern, Region};
use std::alloc::Global;
use symbolic_rows::region_pattern;

/// A region with the rows that its entities write.
#[derive(Drop)]
pub struct Written<'r> {
    pub region: &'r Region,
    pub pattern: Pattern,
}

/// Each of these regions with its rows, in their order. `Memory` comes where memory ran out.
pub fn written_by<'r>(
    alloc: Global,
    parts: &Parts<'_>,
    regions: &'r [Region],
) -> Result<Vec<Written<'r>>, Memory>
    requires { AreParts parts.now }
    ensures { IfOk result (λ written. AreWritten (basis_of parts.now) regions.now written.items) }
{
    let mut written = Vec::new(alloc);
    for region in regions {
        let pattern = region_pattern(alloc, parts, region)?;
        written.push(Written { region, pattern })?;
    }
    Ok(written)
}
