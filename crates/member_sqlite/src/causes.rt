ghost use Rattle.member_sqlite.specs.Causes.{IsToldAs};

use sqlite::{Error, ErrorCode};
use sqlite_resolve::CompileError;

/// Why the database refused a call.
#[derive(Clone, Copy, Debug, PartialEq, Eq)]
pub(crate) enum Refusal {
    /// There was no memory for it.
    Memory,
    /// Any other cause.
    Other,
}

/// Want of memory, or any other cause.
pub(crate) fn refusal_of(error: Error) -> Refusal
    ensures { IsToldAs error result }
{
    match error {
        Error::SqliteFailure(ErrorCode::OutOfMemory) => Refusal::Memory,
        Error::SqlInputError(CompileError::OutOfMemory) => Refusal::Memory,
        _ => Refusal::Other,
    }
}
