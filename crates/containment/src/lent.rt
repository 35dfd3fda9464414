ghost use Rattle.std.specs.Prelude.{◌≡◌, IfOk};
ghost use Rattle.regions.specs.region_laws.pattern.Allowed.{told_of};
ghost use Rattle.containment.specs.Lent.{focus_in};

use condition_logic::AtomOf;
use emc_base::{AssocId, Memory};
use regions::{Focus, Region};
use symbolic_rows::focus_on;

/// Whom a pattern tells of, lent.
#[derive(Clone, Copy)]
pub enum FocusRef<'r> {
    /// An entity of the region with its hosted links.
    Entity(&'r Region),
    /// A link of the association.
    Link(AssocId),
}

/// What is known of its properties; nothing of a link.
pub fn atoms_of<'r>(of: FocusRef<'r>) -> &'r [AtomOf]
    ensures { result.now ≡ told_of (focus_in of.entry) }
{
    match of {
        FocusRef::Entity(region) => region.atoms.as_slice(),
        FocusRef::Link(_) => &[],
    }
}

/// The same, owned. `Memory` comes where memory ran out.
pub fn focus_of(of: FocusRef<'_>) -> Result<Focus, Memory>
    ensures { IfOk result (λ made. made ≡ focus_in of.entry) }
{
    match of {
        FocusRef::Entity(region) => focus_on(region),
        FocusRef::Link(assoc) => Ok(Focus::Link(assoc)),
    }
}
