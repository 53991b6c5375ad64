/// How a run of the program ended.
#[derive(Clone, Copy, Debug, PartialEq, Eq)]
pub enum Status {
    /// What was asked for was written.
    Done,
    /// The words of the command line are none that are known.
    Usage,
    /// The source's bytes are no JSON text.
    NotJson,
    /// They are a JSON text that breaks a rule of scripts.
    NotAScript,
    /// A read of the source failed.
    ReadFailed,
    /// A write to the sink failed.
    WriteFailed,
    /// The source has more bytes than are read.
    TooLong,
    /// Memory was refused.
    Memory,
    /// A keeper failed to be cleared at the start.
    ClearFailed,
    /// The source's bytes are no stored entry.
    NotAnEnvelope,
    /// The source's bytes are no trace.
    NotATrace,
    /// A line of the trace on the source breaks a rule.
    Broken,
}

impl From<Status> for u8 {
    ghost use Rattle.std.specs.Prelude.{◌≡◌};
    ghost use Rattle.top_call.specs.Status.{code_of};

    ghost from_gives = { λ status code. code ≡ code_of status };

    /// The exit status of the process.
    fn from(status: Status) -> u8 {
        match status {
            Status::Done => 0,
            Status::Usage => 1,
            Status::NotJson => 2,
            Status::NotAScript => 3,
            Status::ReadFailed => 4,
            Status::WriteFailed => 5,
            Status::TooLong => 6,
            Status::Memory => 7,
            Status::ClearFailed => 8,
            Status::NotAnEnvelope => 9,
            Status::NotATrace => 10,
            Status::Broken => 11,
        }
    }
}
