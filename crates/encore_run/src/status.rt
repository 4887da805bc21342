// How a call of the program ends.

/// How a call of the program ends.
#[derive(Clone, Copy, Debug, PartialEq, Eq)]
pub enum Status {
    /// The run is at its end.
    Ended,
    /// The source breaks a rule.
    Rejected,
    /// The words are no command.
    Usage,
    /// No actor is ready, and one has trapped.
    Trapped,
    /// No actor is ready, none has trapped, and one waits.
    Blocked,
    /// The run has made as many steps as it may.
    Budget,
    /// Memory ran out.
    Memory,
    /// A file that the words name can't be read.
    ReadFault,
    /// The output or the history can't be written.
    WriteFault,
}

impl Status {
    ghost use Rattle.std.specs.Prelude.{◌≡◌};
    ghost use Rattle.encore_run.specs.Status.{code_of};

    /// The number with which the program ends.
    pub fn code(self) -> u8
        ensures { result ≡ code_of self }
    {
        match self {
            Status::Ended => 0,
            Status::Rejected => 1,
            Status::Usage => 2,
            Status::Trapped => 3,
            Status::Blocked => 4,
            Status::Budget => 5,
            Status::Memory => 6,
            Status::ReadFault => 7,
            Status::WriteFault => 8,
        }
    }
}
