//! Why a file was not opened.

ghost use Rattle.std.specs.Prelude.{◌≡◌};
ghost use Rattle.member_sqlite.specs.Told.{told};

use sqlite::{Error as Cause, ErrorCode};
use sqlite_resolve::CompileError;
use thiserror::Error;

/// Why no keeper was made of a file. What was stored in the file is in it still.
#[derive(Clone, Copy, Debug, PartialEq, Eq, Error)]
pub enum OpenError {
    /// Another keeper or another process has the file open.
    #[error("another keeper or process has the file open")]
    Locked,
    /// The file is no database or a damaged one, or a row of its entries is no entry.
    #[error("the file is damaged, or is no database of entries")]
    Damaged,
    /// The file is a sound database, but its tables are not those of this version.
    #[error("the file has other tables than those of this version")]
    OtherVersion,
    /// The disk has no room.
    #[error("the disk is full")]
    Full,
    /// The path can't be opened: a folder that is missing, rights that lack, or what is no plain file with one name.
    #[error("the file can't be opened or made")]
    CannotOpen,
    /// The disk failed.
    #[error("the disk failed")]
    Disk,
    /// Memory was refused.
    #[error("out of memory")]
    Memory,
}

/// What is told of an error of the database.
pub(crate) fn told(cause: Cause) -> OpenError
    ensures { result ≡ told cause }
{
    match cause {
        Cause::SqliteFailure(ErrorCode::DatabaseBusy) => OpenError::Locked,
        Cause::SqliteFailure(ErrorCode::DiskFull) => OpenError::Full,
        Cause::SqliteFailure(ErrorCode::CannotOpen) => OpenError::CannotOpen,
        Cause::SqliteFailure(ErrorCode::SystemIoFailure) => OpenError::Disk,
        Cause::SqliteFailure(ErrorCode::Closed) => OpenError::Disk,
        Cause::SqliteFailure(ErrorCode::OutOfMemory) => OpenError::Memory,
        Cause::SqlInputError(CompileError::OutOfMemory) => OpenError::Memory,
        Cause::SqlInputError(_) => OpenError::OtherVersion,
        _ => OpenError::Damaged,
    }
}
