ghost use Rattle.mapping_run.specs.answers.Says.{Says};
ghost use Rattle.mapping_run.specs.declared.answers.status.Status.TheVariants.{Done, DocumentRefused};

use crate::answers::status::Status;
use emc_base::{Bin, Txt};

/// What a run prints, how it ends where that is written, and what it saves.
#[derive(Drop)]
pub struct Answer {
    /// What is printed.
    pub text: Bin,
    /// How the run ends.
    pub status: Status,
    /// What the file that the command writes is to hold; `None` where it is left as it is.
    pub saved: Option<Bin>,
}

impl Answer {
    /// The answer that prints this text.
    pub fn of_text(text: Txt, status: Status) -> Answer
        ensures { Says text status result }
    {
        let text = Bin::from_vec(text.into_string().into_bytes());
        let saved = None;
        Answer {
            text,
            status,
            saved,
        }
    }

    /// The answer that prints the result of an accepted mapping.
    pub fn done(text: Bin) -> Answer
        ensures { Says text Done result }
    {
        let status = Status::Done;
        let saved = None;
        Answer {
            text,
            status,
            saved,
        }
    }

    /// The answer that a document which holds data isn't taken, for the reason that the text tells.
    pub fn refusal(text: Txt) -> Answer
        ensures { Says text DocumentRefused result }
    {
        Answer::of_text(text, Status::DocumentRefused)
    }
}

/// Why a command stopped before its own work.
#[derive(Drop)]
pub enum Halt {
    /// This is printed in place of it.
    Tells(Answer),
    /// Memory ran out.
    Memory,
}

impl From<emc_base::Memory> for Halt {
    ghost use Rattle.std.specs.Prelude.{◌≡◌};
    ghost use Rattle.mapping_run.specs.declared.answers.answer.Halt.TheVariants.{Memory};

    ghost from_gives = { λ _ halt. halt ≡ Memory };

    fn from(_memory: emc_base::Memory) -> Halt {
        Halt::Memory
    }
}
