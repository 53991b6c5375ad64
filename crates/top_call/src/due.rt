use crate::status::Status;

/// What is to be written, and why.
#[derive(Drop)]
pub enum Due {
    /// What was asked for: a report, a script, the end of a run, or that a trace is lawful.
    Fulfilled(String),
    /// What was asked for, where it is no text: a stored entry.
    Upgraded(Vec<u8>),
    /// The keeper of a place failed to forget what it kept.
    NotCleared(String),
    BadWords,
    NotJson,
    /// A rule of scripts is broken.
    NotAScript(String),
    /// The bytes are no stored entry.
    NotAnEnvelope(String),
    /// The bytes are no trace.
    NotATrace(String),
    /// A line of the trace breaks a rule.
    NotLawful(String),
    ReadFailed,
    TooLong,
    Memory,
}

impl Due {
    ghost use Rattle.std.specs.Prelude.{◌≡◌};
    ghost use Rattle.top_call.specs.Due.{text_due, status_due};

    /// The bytes that are to be written. Where they are a text, it ends with a newline or is empty.
    pub fn bytes(&self) -> &[u8]
        ensures { result.now ≡ text_due self.now }
    {
        match self {
            Due::Fulfilled(text)
            | Due::NotCleared(text)
            | Due::NotAScript(text)
            | Due::NotAnEnvelope(text)
            | Due::NotATrace(text)
            | Due::NotLawful(text) => text.as_bytes(),
            Due::Upgraded(bytes) => bytes.as_slice(),
            Due::BadWords => b"bad words\n",
            Due::NotJson => b"not json\n",
            Due::TooLong => b"too long\n",
            Due::ReadFailed | Due::Memory => b"",
        }
    }

    /// The exit status.
    pub fn status(&self) -> Status
        ensures { result ≡ status_due self.now }
    {
        match self {
            Due::Fulfilled(_) | Due::Upgraded(_) => Status::Done,
            Due::NotCleared(_) => Status::ClearFailed,
            Due::BadWords => Status::Usage,
            Due::NotJson => Status::NotJson,
            Due::NotAScript(_) => Status::NotAScript,
            Due::NotAnEnvelope(_) => Status::NotAnEnvelope,
            Due::NotATrace(_) => Status::NotATrace,
            Due::NotLawful(_) => Status::Broken,
            Due::ReadFailed => Status::ReadFailed,
            Due::TooLong => Status::TooLong,
            Due::Memory => Status::Memory,
        }
    }
}
