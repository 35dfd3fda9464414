ghost use Rattle.std.specs.Prelude.{◌≡◌, IfOk};
ghost use Rattle.csdl_associations.specs.csdl_constraints.Sides.{roots_in};
ghost use Rattle.ssdl_model.specs.ssdl_lists.RawStore.{IsUnbased};

use csdl_names::RawModel;
use emc_base::Memory;
use std::alloc::Global;

/// The type at the top above each type of a store: itself.
pub(crate) fn roots_of(alloc: Global, store: &RawModel) -> Result<Vec<usize>, Memory>
    requires { IsUnbased store.now }
    ensures { IfOk result (λ roots. roots.items ≡ roots_in store.now) }
{
    let mut roots = Vec::new(alloc);
    for place in 0..store.types.len() {
        roots.push(place)?;
    }
    Ok(roots)
}
