ghost use Rattle.std.specs.Prelude.{◌≡◌, drop, option_copied};
ghost use Rattle.mapping_run.specs.Commands.{command_named, command_of, inputs_of, output_of};

use crate::answers::{Command, input_count, name_count};
use emc_base::Txt;

// The command that these words are; `None` where they are none.
pub(crate) fn command_of(words: &[Txt]) -> Option<Command>
    ensures { result ≡ command_of words.now }
{
    let [word, names @ ..] = words else {
        return None;
    };
    let command = command_named(word.as_str())?;
    if names.len() == name_count(command) {
        Some(command)
    } else {
        None
    }
}

// The command of a name; `None` where it is none.
fn command_named(word: &str) -> Option<Command>
    ensures { result ≡ command_named word.now }
{
    match word {
        "check" => Some(Command::Check),
        "views" => Some(Command::Views),
        "store" => Some(Command::Store),
        "load" => Some(Command::Load),
        "save" => Some(Command::Save),
        _ => None,
    }
}

// The words that name the input files of the command that the words are.
pub(crate) fn inputs_of(command: Command, words: &[Txt]) -> &[Txt]
    ensures { result.now ≡ inputs_of command words.now }
{
    let names = after_first(words);
    &names[..input_count(command).min(names.len())]
}

// The word that names the file which the command writes; `None` where it writes none.
pub(crate) fn output_of(command: Command, words: &[Txt]) -> Option<&Txt>
    ensures { option_copied result ≡ output_of command words.now }
{
    match command {
        Command::Check | Command::Views | Command::Store | Command::Load => None,
        Command::Save => words.get(6),
    }
}

// The words after the first; none where there is none.
pub(crate) fn after_first(words: &[Txt]) -> &[Txt]
    ensures { result.now ≡ drop 1 words.now }
{
    match words {
        [_, words @ ..] => words,
        [] => &[],
    }
}
