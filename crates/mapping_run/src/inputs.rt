ghost use Rattle.std.specs.Prelude.{◌≡◌};
ghost use Rattle.emc_files.specs.contracts.files.Files as F;
ghost use Rattle.mapping_run.specs.RunSteps.{IsTold, ReadsInput, ReadsInputs, TellsReadFault};
ghost use Rattle.texts.specs.command_texts.Texts.{file_text};

use crate::answers::{Answer, Halt, Status};
use emc_base::{Bin, Memory, Seq, Txt};
use emc_files::{Files, ReadFault};
use std::alloc::Global;
use texts::file_text;

/// The largest input file, in bytes.
const LARGEST_FILE: u64 = 16_777_216;

/// The contents of the files of these names, in their order; or what is told of the first of them that isn't read.
pub(crate) fn read_inputs<F: Files>(
    alloc: Global,
    files: &mut F,
    names: &[Txt],
) -> Result<Seq<Bin>, Halt>
    ensures same { F.held files.new ≡ F.held files.old }
    ensures reads { ReadsInputs F.may_fail (F.held files.old) (F.fault_count files.old) (F.fault_count files.new) names.now result }
{
    let mut contents = Seq::empty(alloc);
    for name in names {
        contents.push(read_input(alloc, files, name)?)?;
    }
    Ok(contents)
}

// The content of an input file, or what is told where it isn't read.
fn read_input<F: Files>(alloc: Global, files: &mut F, name: &Txt) -> Result<Bin, Halt>
    ensures same { F.held files.new ≡ F.held files.old }
    ensures reads { ReadsInput F.may_fail (F.held files.old) (F.fault_count files.old) (F.fault_count files.new) name.now result }
{
    match files.read(alloc, name, LARGEST_FILE) {
        Ok(bytes) => Ok(bytes),
        Err(fault) => Err(told_of(alloc, name.as_str(), fault)),
    }
}

// What is told of a file that isn't read.
fn told_of(alloc: Global, name: &str, fault: ReadFault) -> Halt
    ensures { TellsReadFault name.now fault result }
{
    match fault {
        ReadFault::Missing => told(alloc, "missing", name),
        ReadFault::TooLarge => told(alloc, "toolarge", name),
        ReadFault::Failed => told(alloc, "failed", name),
        ReadFault::Memory => Halt::Memory,
    }
}

fn told(alloc: Global, word: &str, name: &str) -> Halt
    ensures { IsTold (file_text word.now name.now) result }
{
    match file_text(alloc, word, name) {
        Ok(text) => Halt::Tells(Answer::of_text(text, Status::FileFault)),
        Err(Memory) => Halt::Memory,
    }
}
