//! Stored entries, as `upgrade` writes them in format 2, and as a restart loads them in both formats.

use crate::checking::check;
use std::alloc::Global;
use std::test::Fail;
use top_call::Status;
use trial_rows::{Answer, answered, called, keepers, loading_keepers, printed, streams};

/// A growing counter in format 1: share 5 of identity 0, which has one record.
const FIRST: &str = "\u{1}\u{1}\0\u{1}\0\0\0\0\0\0\0\0\u{1}\u{1}\0\0\0\0\0\0\0\0\u{5}";

/// The same with one byte more.
const LONGER: &str = "\u{1}\u{1}\0\u{1}\0\0\0\0\0\0\0\0\u{1}\u{1}\0\0\0\0\0\0\0\0\u{5}\0";

/// The first in format 2. Its last 20 bytes are the SHA-1 of those before them, made by another program.
const SECOND: &[u8] =
    b"\x02\x01\0\x01\0\0\0\0\0\0\0\0\x01\x01\0\0\0\0\0\0\0\0\x05\xdf\0\x86\xbf\xa4\xf5\xfc\xab\x7b\x03\x22\x9e\x9e\x67\x9a\x12\x29\xd1\xc7\x5a";

/// Where the fault of `SECOND` is once one of its bytes is raised by one, if not at its last field.
const FAULTS: &[(usize, usize)] = &[(0, 0), (1, 25), (2, 10), (3, 14), (13, 32)];

/// The start of its last field.
const SEAL: usize = 23;

/// What `upgrade` answers of these bytes, where the source and the sink fail at the calls named. A keeper would fail at its first call.
fn answer(alloc: Global, bytes: &[u8], reads: &[u64], writes: &[u64]) -> Result<Answer, Fail> {
    let streams = streams(alloc, bytes, reads, writes)?;
    answered(alloc, "upgrade", streams, keepers(alloc, 0, &[0])?)
}

/// The text for a fault at this place.
fn fault(alloc: Global, place: usize) -> Result<String, Fail> {
    Ok(format!(in alloc; "not an envelope: place {place}\n")?)
}

/// The bytes of `SECOND`, of which one is raised by one.
fn raised(alloc: Global, index: usize) -> Result<Vec<u8>, Fail> {
    let mut bytes = Vec::from_slice(alloc, SECOND)?;
    if let Some(byte) = bytes.get_mut(index) {
        *byte = byte.wrapping_add(1);
    }
    Ok(bytes)
}

/// The place of the fault once this byte is raised.
fn place_of(index: usize) -> usize {
    for (byte, place) in FAULTS {
        if *byte == index {
            return *place;
        }
    }
    SEAL
}

/// So many bytes at the front.
fn front(bytes: &[u8], count: usize) -> &[u8] {
    &bytes[..count.min(bytes.len())]
}

#[test]
fn an_entry_of_either_format_is_written_in_format_2(rt: HostRuntime) -> Result<(), Fail> {
    let alloc = rt.alloc();
    for bytes in [FIRST.as_bytes(), SECOND] {
        let answer = answer(alloc, bytes, &[], &[])?;
        check(&rt, &answer, Status::Done, SECOND, bytes.len());
    }
    Ok(())
}

#[test]
fn so_does_the_call_with_clients(rt: HostRuntime) -> Result<(), Fail> {
    let alloc = rt.alloc();
    let answer = called(&rt, alloc, "upgrade", FIRST, keepers(alloc, 0, &[0])?)?;
    check(&rt, &answer, Status::Done, SECOND, "run");
    Ok(())
}

// Each byte of a stored entry is raised in its turn.
#[test]
fn what_was_changed_is_refused_at_its_place(rt: HostRuntime) -> Result<(), Fail> {
    let alloc = rt.alloc();
    for index in 0..SECOND.len() {
        let answer = answer(alloc, &raised(alloc, index)?, &[], &[])?;
        let text = fault(alloc, place_of(index))?;
        check(&rt, &answer, Status::NotAnEnvelope, text.as_bytes(), index);
    }
    Ok(())
}

#[test]
fn what_is_no_entry_is_refused_at_its_place(rt: HostRuntime) -> Result<(), Fail> {
    let alloc = rt.alloc();
    let rows: [(&[u8], usize); 6] = [
        (b"", 0),
        (b"{}", 0),
        (front(FIRST.as_bytes(), 22), 15),
        (front(SECOND, 23), SEAL),
        (front(SECOND, 42), SEAL),
        (LONGER.as_bytes(), 23),
    ];
    for (bytes, place) in rows {
        let answer = answer(alloc, bytes, &[], &[])?;
        let text = fault(alloc, place)?;
        check(&rt, &answer, Status::NotAnEnvelope, text.as_bytes(), place);
    }
    Ok(())
}

// The source gives seven bytes a call, and its last call gives none.
#[test]
fn each_call_of_the_source_fails(rt: HostRuntime) -> Result<(), Fail> {
    let alloc = rt.alloc();
    for call in 0..SECOND.len().div_ceil(7) as u64 + 1 {
        let answer = answer(alloc, SECOND, &[call], &[])?;
        check(&rt, &answer, Status::ReadFailed, b"", call);
    }
    Ok(())
}

// The sink takes sixteen bytes a call.
#[test]
fn each_call_of_the_sink_fails(rt: HostRuntime) -> Result<(), Fail> {
    let alloc = rt.alloc();
    for (call, written) in [(0, 0), (1, 16), (2, 32)] {
        let answer = answer(alloc, SECOND, &[], &[call])?;
        check(
            &rt,
            &answer,
            Status::WriteFailed,
            front(SECOND, written),
            call,
        );
    }
    Ok(())
}

const A_RESTART: &str =
    r#"{"members":2,"keys":[{"key":"d","kind":"gcounter","durable":true}],"steps":[
    {"do":"restart","id":1},
    {"do":"get","at":2,"key":"d"}]}"#;

const LOADED: &str = r#"1 restart 1 id 2 view 1
2 get 2 d value 5
final view 1
member 0 place 0 view 0
d - known - marks -
member 2 place 1 view 1
d 5 known 0:1 marks -
"#;

const DAMAGED: &str = r#"1 restart 1 damaged d
2 get 2 d gone
final view 0
member 0 place 0 view 0
d - known - marks -
member 1 place 1 view 0
d - known - marks -
"#;

#[test]
fn a_restart_loads_either_format(rt: HostRuntime) -> Result<(), Fail> {
    let alloc = rt.alloc();
    for bytes in [FIRST.as_bytes(), SECOND] {
        let answer = printed(alloc, A_RESTART, loading_keepers(alloc, bytes)?)?;
        check(&rt, &answer, Status::Done, LOADED.as_bytes(), bytes.len());
    }
    Ok(())
}

#[test]
fn a_restart_tells_what_was_changed(rt: HostRuntime) -> Result<(), Fail> {
    let alloc = rt.alloc();
    for index in 0..SECOND.len() {
        let keepers = loading_keepers(alloc, &raised(alloc, index)?)?;
        let answer = printed(alloc, A_RESTART, keepers)?;
        check(&rt, &answer, Status::Done, DAMAGED.as_bytes(), index);
    }
    Ok(())
}
