ghost use Rattle.std.specs.Prelude.{All, IfOk};
ghost use Rattle.cells.specs.Parts.{AreParts};
ghost use Rattle.entity_changes.specs.Changes.{IsChange};
ghost use Rattle.entity_changes.specs.Touching.{TellsTouched};

use cells::Parts;
use emc_base::{Memory, Seq};
use entity_changes::{Change, Touched};
use std::alloc::Global;

/// What changes touch, each once: the key of each changed entity, the key of the entity that hosts a changed link, and each changed link of a joined association
/// set. `Memory` comes where memory ran out.
pub fn touched(alloc: Global, parts: &Parts<'_>, changes: &Seq<Change>) -> Result<Touched, Memory>
    requires parts { AreParts parts.now }
    requires changes { All (IsChange parts.now.model.now) changes.now }
    ensures { IfOk result (TellsTouched parts.now.model.now parts.now.cells.now changes.now) }
{
    let found = Touched::of(alloc, parts.model, parts.cells, changes)?;
    Ok(found)
}
