ghost use Rattle.std.specs.Prelude.{◌≡◌, IfOk, IsErr, IsErrAnd, map, string_bytes};
ghost use Rattle.std.specs.IoError.{error_kind};
ghost use Rattle.std.specs.Vec.Iter.{into_iter_items};
ghost use Rattle.emc_files.specs.contracts.files.Files as F;
ghost use Rattle.emc_files.specs.contracts.sink.Sink as W;
ghost use Rattle.mapping_run.specs.Arguments.{texts_in, words_in};
ghost use Rattle.mapping_run.specs.Completeness.{IsComplete};
ghost use Rattle.mapping_run.specs.Runs.{Runs};
ghost use Rattle.mapping_run.specs.World.{world};

use crate::answers::Status;
use crate::commands::run;
use crate::words::after_first;
use emc_base::{Memory, Seq, Txt};
use emc_files::{Files, Sink};
use std::alloc::Global;
use std::env::Args;
use std::io;
use std::io::ErrorKind;

/// Runs the words of a process: its arguments after the first, which is the program's own name. There are none where an argument isn't a text. Where memory ran
/// out as the arguments were read, nothing is done.
pub fn run_arguments<F: Files, W: Sink>(
    alloc: Global,
    arguments: io::Result<Args>,
    files: &mut F,
    out: &mut W,
) -> Status
    ensures headline { Runs F.may_fail (words_in arguments)
        (world (F.held files.old) (F.fault_count files.old) (W.written_to out.old) (W.fault_count out.old))
        (world (F.held files.new) (F.fault_count files.new) (W.written_to out.new) (W.fault_count out.new))
        result }
    ensures complete { IsComplete (words_in arguments)
        (world (F.held files.old) (F.fault_count files.old) (W.written_to out.old) (W.fault_count out.old))
        (world (F.held files.new) (F.fault_count files.new) (W.written_to out.new) (W.fault_count out.new))
        result }
    ensures memory { IsErrAnd arguments (λ error. error_kind error ≡ ErrorKind.OutOfMemory) → result ≡ Status.Memory }
{
    let Ok(texts) = texts_of(alloc, arguments) else {
        return Status::Memory;
    };
    run(alloc, after_first(texts.as_slice()), files, out)
}

// The arguments as texts; none where they can't be read.
fn texts_of(alloc: Global, arguments: io::Result<Args>) -> Result<Seq<Txt>, Memory>
    ensures texts { IfOk result (λ texts. texts ≡ texts_in arguments) }
    ensures memory { IsErrAnd arguments (λ error. error_kind error ≡ ErrorKind.OutOfMemory) → IsErr result }
{
    match arguments {
        Ok(arguments) => each_text(alloc, arguments),
        Err(error) if error.kind() == ErrorKind::OutOfMemory => Err(Memory),
        Err(_) => Ok(Seq::empty(alloc)),
    }
}

// The same of arguments that could be read.
fn each_text(alloc: Global, arguments: Args) -> Result<Seq<Txt>, Memory>
    ensures { IfOk result (λ texts. texts ≡ map string_bytes (into_iter_items arguments)) }
{
    let mut texts = Seq::empty(alloc);
    for argument in arguments {
        texts.push(Txt::from_string(argument))?;
    }
    Ok(texts)
}
