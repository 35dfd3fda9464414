ghost use Rattle.std.specs.Prelude.{IfOk};
ghost use Rattle.mapping_core.specs.Words.{IsViewsText};
ghost use Rattle.mapping_run.specs.answers.Says.{SaysSome};
ghost use Rattle.mapping_run.specs.declared.answers.status.Status.TheVariants.{Done};

use crate::answers::answer::Answer;
use emc_base::Memory;
use mapping_core::{Compiled, views_all};
use std::alloc::Global;

/// The cases of an accepted mapping.
pub(crate) fn viewed(alloc: Global, compiled: &Compiled) -> Result<Answer, Memory>
    ensures { IfOk result (SaysSome (IsViewsText compiled.now) Done) }
{
    Ok(Answer::done(views_all(alloc, compiled)?))
}
