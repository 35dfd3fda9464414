ghost use Rattle.std.specs.Prelude.{◌≡◌, IfOk, Some};
ghost use Rattle.emc_files.specs.contracts.files.Files as F;
ghost use Rattle.emc_files.specs.contracts.sink.Sink as W;
ghost use Rattle.mapping_run.specs.answers.Says.{Says};
ghost use Rattle.mapping_run.specs.declared.answers.status.Status.TheVariants.{Usage};
ghost use Rattle.texts.specs.command_texts.Texts.{usage_text};
ghost use Rattle.mapping_run.specs.Commands.{command_of};
ghost use Rattle.mapping_run.specs.Completeness.{IsComplete};
ghost use Rattle.mapping_run.specs.RunSteps.{EndsOrStops, GivesOrTells, SavesAt};
ghost use Rattle.mapping_run.specs.Runs.{Runs};
ghost use Rattle.mapping_run.specs.World.{world};

use crate::answers::{Answer, Command, Halt, Status, answer_on};
use crate::inputs::read_inputs;
use crate::words::{command_of, inputs_of, output_of};
use emc_base::{Memory, Txt};
use emc_files::{Files, ReplaceFault, Sink, SinkFault};
use mapping_core::{what_is_accepted_is_not_refused, what_is_accepted_is_saved};
use std::alloc::Global;
use texts::{file_text, usage_text};

/// Does what the words after the program's name ask for. Reads files, replaces one, where the command writes one, prints one text, and tells how it ended (`headline`).
/// Where the words are a command, its input files are there, no read, no replace and no write failed, the documents are accepted and the data are legal, it succeeds,
/// unless memory ran out (`complete`).
pub fn run<F: Files, W: Sink>(alloc: Global, words: &[Txt], files: &mut F, out: &mut W) -> Status
    ensures headline { Runs F.may_fail words.now
        (world (F.held files.old) (F.fault_count files.old) (W.written_to out.old) (W.fault_count out.old))
        (world (F.held files.new) (F.fault_count files.new) (W.written_to out.new) (W.fault_count out.new))
        result }
    ensures complete { IsComplete words.now
        (world (F.held files.old) (F.fault_count files.old) (W.written_to out.old) (W.fault_count out.old))
        (world (F.held files.new) (F.fault_count files.new) (W.written_to out.new) (W.fault_count out.new))
        result }
{
    what_is_accepted_is_not_refused();
    what_is_accepted_is_saved();
    let Ok(answer) = answer_of(alloc, words, files) else {
        return Status::Memory;
    };
    if answer.text.as_slice().is_empty() {
        return answer.status;
    }
    match out.put(answer.text.as_slice()) {
        Ok(()) => answer.status,
        Err(SinkFault::Failed) => Status::SinkFault,
        Err(SinkFault::Memory) => Status::Memory,
    }
}

// What the words ask for: the files are read, the one that is written is replaced, and the answer tells what is printed then, and how that ends.
fn answer_of<F: Files>(alloc: Global, words: &[Txt], files: &mut F) -> Result<Answer, Memory>
    ensures { EndsOrStops F.may_fail (F.held files.old) (F.held files.new) (F.fault_count files.old) (F.fault_count files.new) words.now result }
{
    let Some(command) = command_of(words) else {
        return usage(alloc);
    };
    let answer = given(alloc, command, words, files)?;
    match output_of(command, words) {
        Some(name) => saved_at(alloc, files, name, answer),
        None => Ok(answer),
    }
}

// What a command gives on its input files, or what is told of the first of them that isn't read.
fn given<F: Files>(
    alloc: Global,
    command: Command,
    words: &[Txt],
    files: &mut F,
) -> Result<Answer, Memory>
    requires { command_of words.now ≡ Some command }
    ensures same { F.held files.new ≡ F.held files.old }
    ensures gives { IfOk result (GivesOrTells F.may_fail (F.held files.old) (F.fault_count files.old) (F.fault_count files.new) command words.now) }
{
    match read_inputs(alloc, files, inputs_of(command, words)) {
        Ok(contents) => answer_on(alloc, command, &contents),
        Err(Halt::Tells(answer)) => Ok(answer),
        Err(Halt::Memory) => Err(Memory),
    }
}

// Saves what an answer saves in the file of this name. What is printed then: the answer, or that the file could not be replaced, which is told by a text that is made
// before. Nothing takes memory after the file is replaced.
fn saved_at<F: Files>(
    alloc: Global,
    files: &mut F,
    name: &Txt,
    answer: Answer,
) -> Result<Answer, Memory>
    ensures { SavesAt F.may_fail (F.held files.old) (F.held files.new) (F.fault_count files.old) (F.fault_count files.new) name.now answer result }
{
    let Some(text) = &answer.saved else {
        return Ok(answer);
    };
    let failed = Answer::of_text(
        file_text(alloc, "failed", name.as_str())?,
        Status::FileFault,
    );
    match files.replace(alloc, name, text) {
        Ok(()) => Ok(answer),
        Err(ReplaceFault::Failed) => Ok(failed),
        Err(ReplaceFault::Memory) => Err(Memory),
    }
}

// The line that lists the commands.
fn usage(alloc: Global) -> Result<Answer, Memory>
    ensures { IfOk result (Says usage_text Usage) }
{
    Ok(Answer::of_text(usage_text(alloc)?, Status::Usage))
}
