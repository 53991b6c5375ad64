//! The word `check`: its statuses, what it writes, and that the keepers stay.

ghost use Rattle.std.specs.Prelude.{◌≡◌, length, IfOk};

use base_outside::{MemorySink, MemorySource};
use member_keeper::MemoryKeeper;
use std::alloc::Global;
use std::process::Abort;
use std::test::Fail;
use top_call::{Status, replicate, replicate_plain};

const LAWFUL: &str =
    r#"{"keys":[{"key":"n","kind":"gcounter"}],"lines":[{"at":0,"by":5,"do":"record","key":"n","op":"increment"},{"at":1,"do":"hold","key":"n","known":[[0,1]]},{"at":1,"do":"show","key":"n","value":"5"}]}"#;

const BROKEN: &str =
    r#"{"keys":[{"key":"n","kind":"gcounter"}],"lines":[{"at":0,"by":5,"do":"record","key":"n","op":"increment"},{"at":1,"do":"hold","key":"n","known":[[0,2]]}]}"#;

const NO_TRACE: &str =
    r#"{"keys":[{"key":"n","kind":"gcounter"}],"lines":[{"at":0,"do":"show","key":"n","value":"5"},{"at":300}]}"#;

/// A keeper in memory for each place, whose first call would fail.
fn keepers(alloc: Global) -> Result<Vec<MemoryKeeper>, Fail>
    ensures { IfOk result (λ keepers. length keepers.items ≡ 8) }
{
    let mut keepers = Vec::new(alloc);
    for _place in 0_usize..8 {
        keepers.push(MemoryKeeper::new(alloc, Vec::from_slice(alloc, &[0])?))?;
    }
    Ok(keepers)
}

/// A source of these bytes, in pieces of seven, whose calls of these numbers fail.
fn source(alloc: Global, bytes: &[u8], failing: &[u64]) -> Result<MemorySource, Fail> {
    let bytes = Vec::from_slice(alloc, bytes)?;
    Ok(MemorySource::new(alloc, bytes, 7, Vec::from_slice(alloc, failing)?))
}

/// A sink that takes pieces of sixteen bytes, and whose calls of these numbers fail.
fn sink(alloc: Global, failing: &[u64]) -> Result<MemorySink, Fail> {
    Ok(MemorySink::new(alloc, 16, Vec::from_slice(alloc, failing)?))
}

/// The words of a line.
fn words(alloc: Global, line: &str) -> Result<Vec<String>, Fail> {
    let mut words = Vec::new(alloc);
    for word in line.split(' ') {
        words.push(String::from_str(alloc, word)?)?;
    }
    Ok(words)
}

/// What the words of a line answer of these bytes, and what is written, where the source and the sink fail at the calls named.
fn answered(
    alloc: Global,
    line: &str,
    bytes: &[u8],
    reads: &[u64],
    writes: &[u64],
) -> Result<(Status, MemorySink), Fail> {
    let words = words(alloc, line)?;
    let mut source = source(alloc, bytes, reads)?;
    let mut sink = sink(alloc, writes)?;
    let outcome = replicate_plain(alloc, &words, &mut source, &mut sink, keepers(alloc)?);
    Ok((outcome.status, sink))
}

/// The word answers so of these bytes, and writes this.
fn compare<R: Abort>(
    rt: &R,
    alloc: Global,
    bytes: &[u8],
    status: Status,
    text: &str,
) -> Result<(), Fail> {
    let (told, sink) = answered(alloc, "check", bytes, &[], &[])?;
    assert_eq!(rt; told, status);
    assert_eq!(rt; sink.bytes(), text.as_bytes());
    Ok(())
}

#[test]
fn each_status_has_its_text(rt: HostRuntime) -> Result<(), Fail> {
    let alloc = rt.alloc();
    compare(&rt, alloc, LAWFUL.as_bytes(), Status::Done, "lawful\n")?;
    compare(
        &rt,
        alloc,
        BROKEN.as_bytes(),
        Status::Broken,
        "broken: line 2 rule 2\n",
    )?;
    compare(
        &rt,
        alloc,
        NO_TRACE.as_bytes(),
        Status::NotATrace,
        "not a trace: line 2\n",
    )?;
    compare(
        &rt,
        alloc,
        b"{}",
        Status::NotATrace,
        "not a trace: line 0\n",
    )?;
    compare(&rt, alloc, b"", Status::NotJson, "not json\n")
}

#[test]
fn their_numbers(rt: HostRuntime) -> Result<(), Fail> {
    assert_eq!(&rt; u8::from(Status::NotATrace), 10);
    assert_eq!(&rt; u8::from(Status::Broken), 11);
    Ok(())
}

#[test]
fn more_words_are_bad_words(rt: HostRuntime) -> Result<(), Fail> {
    let alloc = rt.alloc();
    for line in [
        "Check",
        "check 1",
        "check check",
        "check trace.json",
        "1 check",
    ] {
        let (told, sink) = answered(alloc, line, LAWFUL.as_bytes(), &[], &[])?;
        assert_eq!(&rt; told, Status::Usage);
        assert_eq!(&rt; sink.bytes(), b"bad words\n".as_slice());
    }
    Ok(())
}

// The source gives seven bytes a call, and its last call gives none.
#[test]
fn each_call_of_the_source_fails(rt: HostRuntime) -> Result<(), Fail> {
    let alloc = rt.alloc();
    for call in 0..LAWFUL.len().div_ceil(7) as u64 + 1 {
        let (told, sink) = answered(alloc, "check", LAWFUL.as_bytes(), &[call], &[])?;
        assert_eq!(&rt; told, Status::ReadFailed);
        assert!(&rt; sink.bytes().is_empty());
    }
    Ok(())
}

#[test]
fn a_call_of_the_sink_fails(rt: HostRuntime) -> Result<(), Fail> {
    let alloc = rt.alloc();
    let (told, sink) = answered(alloc, "check", BROKEN.as_bytes(), &[], &[1])?;
    assert_eq!(&rt; told, Status::WriteFailed);
    assert_eq!(&rt; sink.bytes(), b"broken: line 2 r".as_slice());
    Ok(())
}

#[test]
fn so_does_the_call_with_clients(rt: HostRuntime) -> Result<(), Fail> {
    let alloc = rt.alloc();
    let words = words(alloc, "check")?;
    let mut source = source(alloc, LAWFUL.as_bytes(), &[])?;
    let mut sink = sink(alloc, &[])?;
    let outcome = replicate(&rt, alloc, &words, &mut source, &mut sink, keepers(alloc)?);
    assert_eq!(&rt; outcome.status, Status::Done);
    assert_eq!(&rt; sink.bytes(), b"lawful\n".as_slice());
    Ok(())
}
