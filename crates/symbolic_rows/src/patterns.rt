ghost use Rattle.std.specs.Prelude.{◌≡◌, IfOk};
ghost use Rattle.cells.specs.Parts.{AreParts};
ghost use Rattle.region_states.specs.focus.Given.{HasFactsOf};
ghost use Rattle.region_states.specs.region_basis.BasisOf.{basis_of};
ghost use Rattle.regions.specs.Patterns.{pattern_of};
ghost use Rattle.regions.specs.declared.pattern.Focus.TheVariants as focus;

use crate::rows::pattern_by;
use crate::writings::{link_writings, region_writings};
use cells::Parts;
use emc_base::{AssocId, Memory};
use region_states::{a_pattern_is_the_facts, parts_are_a_basis};
use regions::{Focus, Pattern, Region};
use std::alloc::Global;

/// The rows that an entity of a region demands with its hosted links, or a link of a joined association, in symbols: one for each table
/// that is written, in the order of tables, each cell with the symbols that it is to hold, each once. With the values of an entity and of
/// its partners' keys, or of a link, these are the rows and cells that the fragments give of it. It passes the fragments, the association
/// sets and the tables once. `Memory` comes where memory ran out.
pub fn pattern(alloc: Global, parts: &Parts<'_>, focus: &Focus) -> Result<Pattern, Memory>
    requires { AreParts parts.now }
    ensures computed { IfOk result (λ pattern. pattern ≡ pattern_of (basis_of parts.now) focus.now) }
    ensures facts { IfOk result (λ pattern. HasFactsOf (basis_of parts.now) focus.now pattern) }
{
    parts_are_a_basis();
    a_pattern_is_the_facts();
    match focus {
        Focus::Entity(region) => region_pattern(alloc, parts, region),
        Focus::Link(assoc) => link_pattern(alloc, parts, *assoc),
    }
}

/// The same of an entity of a region.
pub fn region_pattern(alloc: Global, parts: &Parts<'_>, region: &Region) -> Result<Pattern, Memory>
    requires { AreParts parts.now }
    ensures { IfOk result (λ pattern. pattern ≡ pattern_of (basis_of parts.now) (focus.Entity region.now)) }
{
    let writings = region_writings(alloc, parts, region)?;
    pattern_by(alloc, parts.store, writings)
}

/// The same of a link.
pub fn link_pattern(alloc: Global, parts: &Parts<'_>, assoc: AssocId) -> Result<Pattern, Memory>
    requires { AreParts parts.now }
    ensures { IfOk result (λ pattern. pattern ≡ pattern_of (basis_of parts.now) (focus.Link assoc)) }
{
    let writings = link_writings(alloc, parts, assoc)?;
    pattern_by(alloc, parts.store, writings)
}
