ghost use Rattle.std.specs.Prelude.{IfOk};
ghost use Rattle.mapping_core.specs.Words.{AreTables, IsState, IsStateText};
ghost use Rattle.mapping_run.specs.answers.Answers.{NamesTable};
ghost use Rattle.mapping_run.specs.answers.Loading.{GivesLoaded, GivesState, RefusesTables};
ghost use Rattle.mapping_run.specs.answers.Says.{SaysSome};
ghost use Rattle.mapping_run.specs.declared.answers.status.Status.TheVariants.{Done};

use crate::answers::answer::Answer;
use emc_base::{Bin, Memory};
use mapping_core::{Compiled, EntityState, LoadFault, ShapeFault, Tables, load, read_tables};
use std::alloc::Global;
use texts::{differs_text, illegal_text, no_case_text, table_breach_text, table_shape_text};

/// The entities of a table document by an accepted mapping.
pub(crate) fn loaded(alloc: Global, compiled: &Compiled, document: &Bin) -> Result<Answer, Memory>
    ensures { IfOk result (GivesLoaded document.now compiled.now) }
{
    match read_tables(alloc, &compiled.schema().store, document) {
        Ok(tables) => state_of(alloc, compiled, &tables),
        Err(ShapeFault::Shape(pointer)) => {
            let text = table_shape_text(alloc, pointer.as_str())?;
            Ok(Answer::refusal(text))
        }
        Err(ShapeFault::Memory) => Err(Memory),
    }
}

// The entities that tables tell.
fn state_of(alloc: Global, compiled: &Compiled, tables: &Tables) -> Result<Answer, Memory>
    requires { AreTables compiled.now.store tables.now }
    ensures { IfOk result (GivesState compiled.now tables.now) }
{
    match load(alloc, compiled, tables) {
        Ok(state) => printed(alloc, compiled, &state),
        Err(fault) => refused(alloc, compiled, &fault),
    }
}

// A state as a document.
fn printed(alloc: Global, compiled: &Compiled, state: &EntityState) -> Result<Answer, Memory>
    requires { IsState compiled.now.model state.now }
    ensures { IfOk result (SaysSome (IsStateText compiled.now state.now) Done) }
{
    let document = state.to_doc(alloc, &compiled.schema().model)?;
    Ok(Answer::done(document.bytes(alloc)?))
}

/// Why tables tell no state.
pub(crate) fn refused(
    alloc: Global,
    compiled: &Compiled,
    fault: &LoadFault,
) -> Result<Answer, Memory>
    requires { NamesTable compiled.now fault.now }
    ensures { IfOk result (RefusesTables compiled.now fault.now) }
{
    match fault {
        LoadFault::Breach(breach) => Ok(Answer::refusal(table_breach_text(alloc, breach)?)),
        LoadFault::NoCase(place) => Ok(Answer::refusal(no_case_text(alloc, place)?)),
        LoadFault::Illegal(breach) => Ok(Answer::refusal(illegal_text(alloc, breach)?)),
        LoadFault::Differs {
            place,
            held,
            demanded,
        } => {
            let store = &compiled.schema().store;
            let text = differs_text(alloc, store, place, held, demanded)?;
            Ok(Answer::refusal(text))
        }
        LoadFault::Memory => Err(Memory),
    }
}
