use data_codec::{CodecError, read_stored};
use data_value::Data;
use script_hints::{hint, slip};
use script_reading::{Clients, RunStep, Step, read_script};
use std::alloc::{AllocError, Global};
use std::process::ExitCode;
use top_call::Status;

const USAGE: &str =
    "bad words: usage: replicator run|plain|watch|behind K|trace < script.json (K: 1 to 64), replicator upgrade < entry, replicator check < trace.json, replicator gen|sum N (N: 1 to 4094)";

/// The longest script, in bytes, that is looked through for a slip, since to read it again costs as much as to read it.
const LONGEST_LOOKED_THROUGH: usize = 8_192;

/// What is said of the statuses whose cause is known by them alone.
const SAID: [(Status, &str); 6] = [
    (Status::Usage, USAGE),
    (Status::ReadFailed, "reading failed"),
    (Status::WriteFailed, "writing failed"),
    (Status::TooLong, "too long: at most 8388608 bytes are read"),
    (Status::Memory, "memory ran out"),
    (
        Status::ClearFailed,
        "store failed: what is stored at that place could not be cleared",
    ),
];

/// Which steps with clients the script may have that the words ask for.
pub(crate) fn clients_of(words: &Result<Vec<String>, AllocError>) -> Clients {
    match words {
        Ok(words) => match words.as_slice() {
            [word] if word.as_str() == "run" => Clients::Allowed,
            [word] if word.as_str() == "watch" => Clients::Following,
            _ => Clients::Refused,
        },
        Err(_) => Clients::Refused,
    }
}

/// Says on standard error why the program did not do what it was asked, if it did not, and else where the script that it played
/// may have a slip. A failure to say so changes nothing.
pub(crate) fn tell<R: Eprint + AllocGlobal>(
    rt: &R,
    code: ExitCode,
    clients: Clients,
    bytes: Option<&[u8]>,
) {
    for (status, line) in SAID {
        if is(code, status) {
            let _ = eprintln!(rt; "{line}");
        }
    }
    if let Some(line) = bytes.and_then(|bytes| of_bytes(rt.alloc(), code, clients, bytes)) {
        let _ = eprintln!(rt; "{line}");
    }
}

/// What is said of the bytes that were read, where the program ended so.
fn of_bytes(alloc: Global, code: ExitCode, clients: Clients, bytes: &[u8]) -> Option<String> {
    if is(code, Status::Done) && bytes.len() <= LONGEST_LOOKED_THROUGH {
        slip(alloc, bytes)
    } else if is(code, Status::NotJson) || is(code, Status::NotAScript) {
        match hint(alloc, clients, bytes) {
            Some(line) => Some(line),
            None => of_settle(alloc, bytes),
        }
    } else if is(code, Status::NotATrace) || is(code, Status::Broken) {
        trace_hints::hint(alloc, bytes)
    } else if is(code, Status::NotAnEnvelope) {
        of_entry(alloc, bytes)
    } else {
        None
    }
}

/// What is said of a script that was to be traced, and has a settle.
fn of_settle(alloc: Global, bytes: &[u8]) -> Option<String> {
    let script = read_script(alloc, Clients::Refused, bytes).ok()?;
    let steps = script.steps.as_slice();
    let index = steps
        .iter()
        .position(|step| matches!(step, RunStep::Plain(Step::Settle)))?;
    let step = index + 1;
    format!(in alloc;
        "not a script: step {step}: a script that is traced has no settle (rule 16)"
    ).ok()
}

/// What is said of bytes that are no stored entry.
fn of_entry(alloc: Global, bytes: &[u8]) -> Option<String> {
    let Err(CodecError::NotAnEnvelope(place)) = read_stored::<Data>(alloc, bytes) else {
        return None;
    };
    let count = bytes.len();
    format!(in alloc;
        "not an envelope: neither format 1 nor format 2 reads at place {place} (bytes read: {count})"
    ).ok()
}

fn is(code: ExitCode, status: Status) -> bool {
    code == ExitCode::from(u8::from(status))
}
