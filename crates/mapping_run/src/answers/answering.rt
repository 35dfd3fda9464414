ghost use Rattle.std.specs.Prelude.{◌≡◌, IfOk, length};
ghost use Rattle.mapping_run.specs.answers.Commands.{input_count};
ghost use Rattle.mapping_run.specs.answers.Gives.{GivesBy, GivesOn};
ghost use Rattle.mapping_run.specs.answers.Says.{Says};
ghost use Rattle.mapping_run.specs.declared.answers.status.Status.TheVariants.{Done};
ghost use Rattle.texts.specs.command_texts.Texts.{accepted_text};

use crate::answers::accepting::accepted;
use crate::answers::answer::{Answer, Halt};
use crate::answers::command::Command;
use crate::answers::load::loaded;
use crate::answers::save::saved;
use crate::answers::status::Status;
use crate::answers::store::stored;
use crate::answers::views::viewed;
use emc_base::{Bin, Memory, Seq};
use mapping_core::{AcceptedMapping, Compiled};
use std::alloc::Global;
use texts::accepted_text;

/// What a command answers on the contents of its input files: what is told of the documents of the mapping where they aren't accepted; else what the command gives
/// by the mapping. `Memory` comes where memory ran out.
pub fn answer_on(alloc: Global, command: Command, contents: &Seq<Bin>) -> Result<Answer, Memory>
    requires { length contents.now ≡ input_count command }
    ensures { IfOk result (GivesOn command contents.now) }
{
    match accepted(alloc, contents) {
        Ok(mapping) => answer_by(alloc, command, mapping, contents),
        Err(Halt::Tells(answer)) => Ok(answer),
        Err(Halt::Memory) => Err(Memory),
    }
}

// What a command gives by an accepted mapping. Views are made for the commands that use them.
fn answer_by(
    alloc: Global,
    command: Command,
    mapping: AcceptedMapping,
    contents: &Seq<Bin>,
) -> Result<Answer, Memory>
    requires { length contents.now ≡ input_count command }
    ensures { IfOk result (GivesBy command contents.now mapping) }
{
    if let Command::Check = command {
        drop(mapping);
        return checked(alloc);
    }
    let compiled = mapping.compiled(alloc)?;
    let answer = answer_with(alloc, command, &compiled, contents);
    drop(compiled);
    answer
}

// The same by an accepted mapping with its views.
fn answer_with(
    alloc: Global,
    command: Command,
    compiled: &Compiled,
    contents: &Seq<Bin>,
) -> Result<Answer, Memory>
    requires { length contents.now ≡ input_count command }
    ensures { IfOk result (GivesBy command contents.now compiled.now) }
{
    match command {
        Command::Check => checked(alloc),
        Command::Views => viewed(alloc, compiled),
        Command::Store => stored(alloc, compiled, contents.at(3)),
        Command::Load => loaded(alloc, compiled, contents.at(3)),
        Command::Save => saved(alloc, compiled, contents.at(3), contents.at(4)),
    }
}

// The verdict on a mapping that is accepted.
fn checked(alloc: Global) -> Result<Answer, Memory>
    ensures { IfOk result (Says accepted_text Done) }
{
    Ok(Answer::of_text(accepted_text(alloc)?, Status::Done))
}
