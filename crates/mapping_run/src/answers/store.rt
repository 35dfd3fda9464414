ghost use Rattle.std.specs.Prelude.{IfOk};
ghost use Rattle.mapping_core.specs.Words.{IsState};
ghost use Rattle.mapping_run.specs.answers.Gives.{GivesStored, GivesTables};

use crate::answers::answer::Answer;
use emc_base::{Bin, Memory};
use mapping_core::{Compiled, EntityState, ShapeFault, StoreFault, read_entities, store_all};
use std::alloc::Global;
use texts::{entity_breach_text, entity_shape_text};

/// The tables of an entity document by an accepted mapping.
pub(crate) fn stored(alloc: Global, compiled: &Compiled, entities: &Bin) -> Result<Answer, Memory>
    ensures { IfOk result (GivesStored entities.now compiled.now) }
{
    match read_entities(alloc, &compiled.schema().model, entities) {
        Ok(state) => tables_of(alloc, compiled, &state),
        Err(ShapeFault::Shape(pointer)) => {
            Ok(Answer::refusal(entity_shape_text(alloc, pointer.as_str())?))
        }
        Err(ShapeFault::Memory) => Err(Memory),
    }
}

// The tables of a state by an accepted mapping.
fn tables_of(alloc: Global, compiled: &Compiled, state: &EntityState) -> Result<Answer, Memory>
    requires { IsState compiled.now.model state.now }
    ensures { IfOk result (GivesTables compiled.now state.now) }
{
    match store_all(alloc, compiled, state) {
        Ok(tables) => {
            let document = tables.to_doc(alloc, &compiled.schema().store)?;
            Ok(Answer::done(document.bytes(alloc)?))
        }
        Err(StoreFault::Breach(breach)) => Ok(Answer::refusal(entity_breach_text(alloc, &breach)?)),
        Err(StoreFault::Memory) => Err(Memory),
    }
}
