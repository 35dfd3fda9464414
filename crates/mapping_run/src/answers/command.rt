ghost use Rattle.std.specs.Prelude.{◌≡◌};
ghost use Rattle.mapping_run.specs.answers.Commands.{input_count, name_count};

/// The commands that are built.
#[derive(Clone, Copy, Debug, PartialEq, Eq)]
pub enum Command {
    /// `check M S P`: the verdict on the documents of three files.
    Check,
    /// `views M S P`: the cases of the mapping of three files.
    Views,
    /// `store M S P ENTITIES`: the tables of an entity document, by the mapping of three files.
    Store,
    /// `load M S P TABLES`: the entities of a table document, by the mapping of three files.
    Load,
    /// `save M S P TABLES CHANGES OUT`: the row changes of a change document on the tables of a table document, by the mapping of three files. The tables afterwards
    /// replace the file `OUT`.
    Save,
}

/// How many input files a command has.
pub fn input_count(command: Command) -> usize
    ensures { result ≡ input_count command }
{
    match command {
        Command::Check | Command::Views => 3,
        Command::Store | Command::Load => 4,
        Command::Save => 5,
    }
}

/// How many files the words of a command name: its input files, and the one that it writes, if it writes one.
pub fn name_count(command: Command) -> usize
    ensures { result ≡ name_count command }
{
    match command {
        Command::Check | Command::Views => 3,
        Command::Store | Command::Load => 4,
        Command::Save => 6,
    }
}
