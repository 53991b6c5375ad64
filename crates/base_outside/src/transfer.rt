ghost use Rattle.std.specs.Prelude.{◌≡◌, ℕ, ◌+◌, ◌<◌, ◌≤◌, length, IfOk, OnOk, OnErr, IsErrOf};
ghost use Rattle.std.specs.Io.KnownBytes.{Appends};
ghost use Rattle.base_outside.specs.Causes.{Rose, HasCause};
ghost use Rattle.base_outside.specs.Transfers.{ReadsToEnd, ReadsCount, ReadsUpTo, AppendsPrefix};

use crate::traits::{Failed, Sink, Source};
use std::alloc::{AllocError, Global};
use thiserror::Error;

/// Why a source was not read to its end. The bytes that were read are gone from it.
#[derive(Clone, Copy, Debug, PartialEq, Eq, Error)]
pub enum ReadAllError {
    /// A call of the source failed.
    #[error("a read failed")]
    ReadFailed,
    /// The source has more bytes than the limit.
    #[error("there are more bytes than the limit")]
    TooLong,
    /// No memory was left for the bytes.
    #[error("out of memory")]
    Memory,
}

impl From<Failed> for ReadAllError {
    ghost use Rattle.base_outside.specs.declared.transfer.ReadAllError.TheVariants.{ReadFailed};
    ghost use Rattle.std.specs.Prelude.{◌≡◌};

    ghost from_gives = { λ _ e. e ≡ ReadFailed };

    fn from(_failed: Failed) -> ReadAllError {
        ReadAllError::ReadFailed
    }
}

impl From<AllocError> for ReadAllError {
    ghost use Rattle.base_outside.specs.declared.transfer.ReadAllError.TheVariants.{Memory};
    ghost use Rattle.std.specs.Prelude.{◌≡◌};

    ghost from_gives = { λ _ e. e ≡ Memory };

    fn from(_refused: AllocError) -> ReadAllError {
        ReadAllError::Memory
    }
}

/// The sink failed before all was written.
#[derive(Clone, Copy, Debug, PartialEq, Eq, Error)]
#[error("a write failed")]
pub struct WriteFailed;

/// The most bytes that one read of `read_all` asks for.
const CHUNK: usize = 4096;

/// Reads a source to its end, if that comes within so many bytes.
///
/// It fails where a call of the source does, where one byte more than the limit was read, and for want of memory.
pub fn read_all<S: Source>(
    alloc: Global,
    source: &mut S,
    limit: usize,
) -> Result<Vec<u8>, ReadAllError>
    requires { limit < usize.MAX }
    ensures whole { IfOk result (λ v. ReadsToEnd (S.left source.old) (S.left source.new) v.items) }
    ensures within { IfOk result (λ v. length v.items ≤ limit) }
    ensures too_long { IsErrOf result ReadAllError.TooLong
        → ReadsCount (S.left source.old) (S.left source.new) (limit + 1) }
    ensures failed { IsErrOf result ReadAllError.ReadFailed
        → Rose (S.faults source.old) (S.faults source.new) }
    ensures failed_within { IsErrOf result ReadAllError.ReadFailed
        → ReadsUpTo (S.left source.old) (S.left source.new) limit }
    ensures gone { OnErr result (ReadsUpTo (S.left source.old) (S.left source.new) (limit + 1)) }
    ensures later { S.faults source.old ≤ S.faults source.new }
{
    let mut bytes = Vec::new(alloc);
    let mut chunk = [0u8; CHUNK];
    while bytes.len() <= limit {
        let room = (limit - bytes.len()).saturating_add(1).min(CHUNK);
        let count = source.read(&mut chunk[..room])?;
        if count == 0 {
            return Ok(bytes);
        }
        bytes.extend_from_slice(&chunk[..count])?;
    }
    Err(ReadAllError::TooLong)
}

/// Writes all of the bytes. Where the sink fails, some from the front on were written, and not all.
pub fn write_all_of<K: Sink>(sink: &mut K, bytes: &[u8]) -> Result<(), WriteFailed>
    ensures all { OnOk result (Appends (K.written sink.old) (K.written sink.new) bytes.now) }
    ensures prefix { OnErr result (AppendsPrefix (K.written sink.old) (K.written sink.new) bytes.now) }
    ensures cause { HasCause (K.faults sink.old) (K.faults sink.new) result }
{
    let mut done = 0usize;
    while done < bytes.len() {
        match sink.write(&bytes[done..]) {
            Ok(count) => done += count,
            Err(_) => return Err(WriteFailed),
        }
    }
    Ok(())
}
