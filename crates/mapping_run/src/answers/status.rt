ghost use Rattle.std.specs.Prelude.{◌≡◌};
ghost use Rattle.mapping_run.specs.answers.Statuses.{status_number};

/// How the program ends.
#[derive(Clone, Copy, Debug, PartialEq, Eq)]
pub enum Status {
    /// An accepted mapping, with its result.
    Done,
    /// A broken rule, a passed limit or a failing state.
    MappingRefused,
    /// An entity, table or change document is refused.
    DocumentRefused,
    /// The words are no command.
    Usage,
    /// A named file is missing, too large or could not be read.
    FileFault,
    /// The output could not be written.
    SinkFault,
    /// Memory ran out. Nothing was printed.
    Memory,
}

impl Status {
    /// The exit status of the process.
    pub fn number(&self) -> u8
        ensures { result ≡ status_number self.now }
    {
        match self {
            Status::Done => 0,
            Status::MappingRefused => 1,
            Status::DocumentRefused => 2,
            Status::Usage => 3,
            Status::FileFault => 4,
            Status::SinkFault => 5,
            Status::Memory => 6,
        }
    }
}
