ghost use Rattle.std.specs.Prelude.{◌≡◌, IfOk};
ghost use Rattle.regions.specs.declared.pattern.Focus.TheVariants as focus;

use condition_logic::AtomOf;
use emc_base::{AssocId, Memory, Seq};
use regions::{Focus, Region};

/// A region as a focus. `Memory` comes where there is none for the copy.
pub fn focus_on(region: &Region) -> Result<Focus, Memory>
    ensures { IfOk result (λ of. of ≡ focus.Entity region.now) }
{
    Ok(Focus::Entity(copy_region(region)?))
}

/// The same region. `Memory` comes where there is none for the copy.
pub fn copy_region(region: &Region) -> Result<Region, Memory>
    ensures { IfOk result (λ copy. copy ≡ region.now) }
{
    Ok(Region {
        set: region.set,
        ty: region.ty,
        atoms: copy_atoms(&region.atoms)?,
        linked: copy_linked(&region.linked)?,
    })
}

// The same atoms.
fn copy_atoms(atoms: &Seq<AtomOf>) -> Result<Seq<AtomOf>, Memory>
    ensures { IfOk result (λ copy. copy ≡ atoms.now) }
{
    let copy = atoms.clone()?;
    Ok(copy)
}

// The same associations.
fn copy_linked(linked: &Seq<AssocId>) -> Result<Seq<AssocId>, Memory>
    ensures { IfOk result (λ copy. copy ≡ linked.now) }
{
    let copy = linked.clone()?;
    Ok(copy)
}
