//! What changes touch.

mod gathered;
mod seen;

ghost use Rattle.std.specs.Prelude.{All, IfOk};
ghost use Rattle.cells.specs.Parts.{CoverModel};
ghost use Rattle.entity_changes.specs.Changes.{IsChange};
ghost use Rattle.entity_changes.specs.Touching.{TellsTouched};

use crate::change::Change;
use crate::touched::gathered::Gathered;
use cells::Cells;
use edm_types::{EntityModel, Link};
use emc_base::{AssocId, Key, Memory, Seq, SetId};
use std::alloc::Global;

/// What changes touch.
#[derive(Drop)]
pub struct Touched {
    /// The keys of entities in their sets: of those that are changed, and of those that host a changed link.
    pub entities: Seq<(SetId, Key)>,
    /// The changed links of joined association sets.
    pub links: Seq<(AssocId, Link)>,
}

impl Touched {
    /// What these changes touch, each once, in the order in which they touch it first; whether a change is refused plays no part. `Memory` comes where
    /// memory ran out.
    pub fn of(
        alloc: Global,
        model: &EntityModel,
        cells: &Cells,
        changes: &Seq<Change>,
    ) -> Result<Touched, Memory>
        requires cover { CoverModel model.now cells.now }
        requires changes { All (IsChange model.now) changes.now }
        ensures { IfOk result (TellsTouched model.now cells.now changes.now) }
    {
        let mut gathered = Gathered::none(alloc);
        for change in changes.as_slice() {
            gathered.add(alloc, model, cells, change)?;
        }
        let Gathered { entities, links } = gathered;
        Ok(Touched {
            entities: entities.into_items(),
            links: links.into_items(),
        })
    }
}
