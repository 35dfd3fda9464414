ghost use Rattle.std.specs.Prelude.{◌≤◌, IfOk, length};
ghost use Rattle.mapping_core.specs.Words.{IsRead};
ghost use Rattle.mapping_run.specs.answers.Answers.{Accepts, AcceptsSchema, IsRefusal, ShowsFailure, HaltsRefused};
ghost use Rattle.mapping_run.specs.answers.Says.{Says};
ghost use Rattle.mapping_run.specs.declared.answers.status.Status.TheVariants.{MappingRefused};

use crate::answers::answer::{Answer, Halt};
use crate::answers::status::Status;
use emc_base::{Bin, Memory, Seq, Txt};
use mapping_core::{AcceptedMapping, Refusal, Schema, VocabFault, decide, read};
use std::alloc::Global;
use texts::{fail_text, limit_text, rule_text};

/// The accepted mapping of the documents that are the first three of these contents; or what is told where they aren't accepted.
pub(crate) fn accepted(alloc: Global, contents: &Seq<Bin>) -> Result<AcceptedMapping, Halt>
    requires { 3 ≤ length contents.now }
    ensures { Accepts contents.now result }
{
    match read(alloc, contents.at(0), contents.at(1), contents.at(2)) {
        Ok(schema) => accepted_schema(alloc, schema),
        Err(VocabFault::Rule(fault)) => Err(Halt::Tells(refused(rule_text(alloc, &fault)?))),
        Err(VocabFault::Memory) => Err(Halt::Memory),
    }
}

// The same of what documents mean that break no rule.
fn accepted_schema(alloc: Global, schema: Schema) -> Result<AcceptedMapping, Halt>
    requires { IsRead schema }
    ensures { AcceptsSchema schema result }
{
    match decide(alloc, schema) {
        Ok(accepted) => Ok(accepted),
        Err(refusal) => {
            let halt = refusal_told(alloc, &refusal);
            drop(refusal);
            Err(halt)
        }
    }
}

// What is told of a refusal.
fn refusal_told(alloc: Global, refusal: &Refusal) -> Halt
    requires { ShowsFailure refusal.now }
    ensures { HaltsRefused refusal.now result }
{
    match refusal_answer(alloc, refusal) {
        Ok(answer) => Halt::Tells(answer),
        Err(Memory) => Halt::Memory,
    }
}

// The answer that tells of a refusal, unless memory ran out.
fn refusal_answer(alloc: Global, refusal: &Refusal) -> Result<Answer, Memory>
    requires { ShowsFailure refusal.now }
    ensures { IfOk result (IsRefusal refusal.now) }
{
    match refusal {
        Refusal::Limit(_, fault) => Ok(refused(limit_text(alloc, fault)?)),
        Refusal::Fails(schema, failure) => {
            let text = fail_text(alloc, schema, failure)?;
            let status = Status::MappingRefused;
            let saved = None;
            Ok(Answer {
                text,
                status,
                saved,
            })
        }
        Refusal::Memory => Err(Memory),
    }
}

// A mapping that isn't accepted, for the reason that the text tells.
fn refused(text: Txt) -> Answer
    ensures { Says text MappingRefused result }
{
    Answer::of_text(text, Status::MappingRefused)
}
