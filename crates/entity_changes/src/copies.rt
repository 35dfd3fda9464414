ghost use Rattle.std.specs.Prelude.{◌≡◌, IfOk};

use edm_types::{Entity, Link};
use emc_base::Memory;
use std::alloc::Global;

/// An equal entity. `Memory` comes where there is none for it.
pub(crate) fn copied_entity(alloc: Global, entity: &Entity) -> Result<Entity, Memory>
    ensures { IfOk result (λ copy. copy ≡ entity.now) }
{
    let values = entity.values.copy(alloc)?;
    Ok(Entity {
        ty: entity.ty,
        values,
    })
}

/// An equal link. `Memory` comes where there is none for it.
pub(crate) fn copied_link(alloc: Global, link: &Link) -> Result<Link, Memory>
    ensures { IfOk result (λ copy. copy ≡ link.now) }
{
    let first = link.first.copy(alloc)?;
    let second = link.second.copy(alloc)?;
    Ok(Link { first, second })
}
