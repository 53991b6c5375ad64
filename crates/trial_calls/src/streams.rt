//! Sources and sinks.

ghost use Rattle.std.specs.Prelude.{◌≤◌, ◌<◌};

use crate::same::{holds, same};
use base_outside::{
    MemorySink, MemorySource, ReadAllError, StdSink, StdSource, WriteFailed, read_all, write_all_of,
};
use std::alloc::Global;
use std::io::Write;
use std::test::Fail;

const TEXT: &[u8] = b"0123456789";

/// A source of the text, which moves so many bytes a call and fails at these calls.
fn source(alloc: Global, piece: usize, failing: &[u64]) -> Result<MemorySource, Fail>
    requires { 1 ≤ piece }
{
    let bytes = Vec::from_slice(alloc, TEXT)?;
    let failing = Vec::from_slice(alloc, failing)?;
    Ok(MemorySource::new(alloc, bytes, piece, failing))
}

/// Of such a source this is read, within so many bytes.
fn check_read(
    alloc: Global,
    piece: usize,
    failing: &[u64],
    limit: usize,
    wanted: Result<&[u8], ReadAllError>,
) -> Result<(), Fail>
    requires piece { 1 ≤ piece }
    requires limit { limit < usize.MAX }
{
    let mut source = source(alloc, piece, failing)?;
    let read = read_all(alloc, &mut source, limit);
    let told = match &read {
        Ok(bytes) => Ok(bytes.as_slice()),
        Err(error) => Err(*error),
    };
    same(&told, &wanted, "what is read in pieces")
}

#[test]
fn reads_to_the_end(rt: HostRuntime) -> Result<(), Fail> {
    let none: &[u64] = &[];
    let third: &[u64] = &[7, 2];
    let past_end: &[u64] = &[5];
    let rows = [
        (1, none, 10, Ok(TEXT)),
        (3, none, 10, Ok(TEXT)),
        (64, none, 11, Ok(TEXT)),
        (3, past_end, 10, Ok(TEXT)),
        (3, none, 9, Err(ReadAllError::TooLong)),
        (64, none, 0, Err(ReadAllError::TooLong)),
        (3, third, 10, Err(ReadAllError::ReadFailed)),
        (3, third, 5, Err(ReadAllError::TooLong)),
    ];
    for (piece, failing, limit, wanted) in rows {
        check_read(rt.alloc(), piece, failing, limit, wanted)?;
    }
    Ok(())
}

/// So much of the text is written to a sink that takes so many bytes a call and fails at these calls.
fn check_write(
    alloc: Global,
    piece: usize,
    failing: &[u64],
    wanted: Result<(), WriteFailed>,
    written: &[u8],
) -> Result<(), Fail>
    requires { 1 ≤ piece }
{
    let mut sink = MemorySink::new(alloc, piece, Vec::from_slice(alloc, failing)?);
    let answer = write_all_of(&mut sink, TEXT);
    same(
        &(answer, sink.bytes()),
        &(wanted, written),
        "what is written in pieces",
    )
}

#[test]
fn writes_in_pieces(rt: HostRuntime) -> Result<(), Fail> {
    let none: &[u64] = &[];
    let second: &[u64] = &[1];
    let rows: [(usize, &[u64], Result<(), WriteFailed>, &[u8]); 4] = [
        (4, none, Ok(()), TEXT),
        (64, second, Ok(()), TEXT),
        (4, second, Err(WriteFailed), b"0123"),
        (9, second, Err(WriteFailed), b"012345678"),
    ];
    for (piece, failing, wanted, written) in rows {
        check_write(rt.alloc(), piece, failing, wanted, written)?;
    }
    Ok(())
}

#[test]
fn goes_on_after_a_failed_call(rt: HostRuntime) -> Result<(), Fail> {
    let alloc = rt.alloc();
    let mut source = source(alloc, 4, &[1])?;
    let failed = read_all(alloc, &mut source, 10).err();
    holds(
        failed == Some(ReadAllError::ReadFailed),
        "a call that fails",
    )?;
    same(
        &read_all(alloc, &mut source, 10)?.as_slice(),
        &b"456789".as_slice(),
        "what is read after it",
    )
}

/// A sink over a writer answers so, handed these bytes.
fn check_std_sink<W: Write + Drop>(
    writer: W,
    bytes: &[u8],
    wanted: Result<(), WriteFailed>,
) -> Result<(), Fail> {
    let mut sink = StdSink::new(writer);
    same(
        &write_all_of(&mut sink, bytes),
        &wanted,
        "a sink over a writer",
    )
}

#[test]
fn adapts_the_standard_library(rt: HostRuntime) -> Result<(), Fail> {
    let alloc = rt.alloc();
    let mut source = StdSource::new(TEXT);
    let bytes = read_all(alloc, &mut source, 10)?;
    same(&bytes.as_slice(), &TEXT, "a source over a reader")?;
    check_std_sink(Vec::new(alloc), &bytes, Ok(()))?;
    let mut room = [0u8; 4];
    check_std_sink(room.as_mut_slice(), &bytes, Err(WriteFailed))
}
