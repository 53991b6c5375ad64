use base_bytes::{Memory, Text};
use member_sqlite::OpenError;
use std::alloc::{AllocError, Global};
use top_lines::Stopped;

/// Why the program ended before the end of its input.
#[derive(Drop)]
pub(crate) enum Ended {
    /// The words of the command line are none that are known.
    Usage,
    /// No member is made with this identity, this view and these keys.
    NoMember,
    /// A view can't be changed so.
    NoChange,
    /// A read of standard input failed.
    ReadFailed,
    /// A write to standard output failed.
    WriteFailed,
    /// A line is too long.
    TooLong,
    /// Memory was refused.
    Memory,
    /// The file was not opened, or not closed.
    NoFile(OpenError),
    /// What is kept at this key is not what a member of this identity and view may begin with.
    Damaged(Text),
    /// What is kept was not loaded.
    LoadFailed,
}

const USAGE: &str =
    "bad words: usage: member --id I (--of N | --view HEX) [--file PATH] (--key | --durable NAME=KIND)..; or: member --of N [--remove I | --join PLACE | --restart I]..";

impl Ended {
    /// The exit status of the process.
    pub(crate) fn code(&self) -> u8 {
        match self {
            Ended::Usage | Ended::NoMember | Ended::NoChange => 1,
            Ended::ReadFailed => 4,
            Ended::WriteFailed => 5,
            Ended::TooLong => 6,
            Ended::Memory => 7,
            Ended::NoFile(_) | Ended::LoadFailed => 8,
            Ended::Damaged(_) => 9,
        }
    }

    /// The same, for a person.
    pub(crate) fn told(&self, alloc: Global) -> Result<String, AllocError> {
        match self {
            Ended::Usage => String::from_str(alloc, USAGE),
            Ended::NoMember => String::from_str(
                alloc,
                "bad words: the identity is no member of the view, or two keys have one name",
            ),
            Ended::NoChange => String::from_str(alloc, "bad words: no view can be changed so"),
            Ended::ReadFailed => String::from_str(alloc, "reading failed"),
            Ended::WriteFailed => String::from_str(alloc, "writing failed"),
            Ended::TooLong => {
                String::from_str(alloc, "too long: a line has at most 16777216 bytes")
            }
            Ended::Memory => String::from_str(alloc, "memory ran out"),
            Ended::NoFile(why) => format!(in alloc; "no file: {why}"),
            Ended::Damaged(key) => {
                let key = key.as_str();
                format!(in alloc;
                    "damaged: what the file has of {key} is no entry for this identity and view"
                )
            }
            Ended::LoadFailed => String::from_str(alloc, "what the file has was not loaded"),
        }
    }
}

impl From<Memory> for Ended {
    fn from(_refused: Memory) -> Ended {
        Ended::Memory
    }
}

impl From<AllocError> for Ended {
    fn from(_refused: AllocError) -> Ended {
        Ended::Memory
    }
}

impl From<Stopped> for Ended {
    fn from(stopped: Stopped) -> Ended {
        match stopped {
            Stopped::ReadFailed => Ended::ReadFailed,
            Stopped::TooLong => Ended::TooLong,
            Stopped::WriteFailed => Ended::WriteFailed,
            Stopped::Memory => Ended::Memory,
        }
    }
}
