//! The word `trace`: what it writes of a script, that this is lawful, and what it refuses.

ghost use Rattle.std.specs.Prelude.{◌≡◌, length, IfOk};

use base_outside::{MemorySink, MemorySource};
use member_keeper::MemoryKeeper;
use std::alloc::Global;
use std::process::Abort;
use std::test::Fail;
use top_call::{Status, replicate_plain};

/// Scripts, a line each, whose traces are lawful.
const SCRIPTS: &str = r#"{"members":1,"keys":[{"key":"n","kind":"gcounter"}],"steps":[]}
{"members":4,"keys":[{"key":"n","kind":"gcounter"}],"steps":[{"do":"update","at":3,"key":"n","op":"increment","by":10},{"do":"flush","at":3},{"do":"round"},{"do":"remove","id":3},{"do":"install","at":0,"view":1},{"do":"install","at":1,"view":1},{"do":"install","at":2,"view":1},{"do":"tick","at":0},{"do":"gossip","at":1,"to":0},{"do":"gossip","at":2,"to":0},{"do":"round"},{"do":"round"},{"do":"round"},{"do":"tick","at":0},{"do":"flush","at":0},{"do":"deliver","from":0,"to":2},{"do":"remove","id":0},{"do":"install","at":1,"view":2},{"do":"install","at":2,"view":2},{"do":"deliver","from":0,"to":1},{"do":"tick","at":1},{"do":"gossip","at":2,"to":1},{"do":"round"},{"do":"round"},{"do":"round"},{"do":"tick","at":1},{"do":"get","at":1,"key":"n"}]}
{"members":2,"keys":[{"key":"s","kind":"orset"},{"key":"f","kind":"flag"},{"key":"a","kind":"gset"}],"steps":[{"do":"update","at":0,"key":"s","op":"add","element":"x"},{"do":"update","at":0,"key":"f","op":"enable"},{"do":"update","at":1,"key":"a","op":"add","element":"y"},{"do":"flush","at":0},{"do":"round"},{"do":"update","at":1,"key":"s","op":"remove","element":"x"},{"do":"flush","at":1},{"do":"round"},{"do":"get","at":0,"key":"s"},{"do":"update","at":0,"key":"a","op":"delete"},{"do":"get","at":0,"key":"a"},{"do":"get","at":0,"key":"zz"},{"do":"update","at":0,"key":"zz","op":"delete"}]}
{"members":3,"keys":[{"key":"n","kind":"pncounter","durable":true},{"key":"m","kind":"lwwregister"}],"steps":[{"do":"update","at":0,"key":"n","op":"decrement","by":2},{"do":"update","at":1,"key":"m","op":"assign","text":"\"q\"","now":4},{"do":"restart","id":0},{"do":"get","at":3,"key":"n"},{"do":"flush","at":1},{"do":"round"},{"do":"update","at":2,"key":"n","op":"increment","by":9,"level":"majority"},{"do":"round"},{"do":"get","at":1,"key":"n","level":"majority"},{"do":"join","place":5},{"do":"gossip","at":4,"to":1},{"do":"round"},{"do":"round"},{"do":"round"},{"do":"get","at":4,"key":"m"}]}
"#;

/// Two members, a counter and a message that is delivered.
const ROW: &str =
    r#"{"members":2,"keys":[{"key":"n","kind":"gcounter"}],"steps":[{"do":"update","at":0,"key":"n","op":"increment","by":5},{"do":"flush","at":0},{"do":"deliver","from":0,"to":1},{"do":"get","at":1,"key":"n"}]}"#;

/// Its trace.
const TRACE_OF_ROW: &str =
    r#"{"keys":[{"key":"n","kind":"gcounter"}],"lines":[{"at":0,"by":5,"do":"record","key":"n","op":"increment"},{"at":1,"do":"hold","key":"n","known":[[0,1]]},{"at":1,"do":"show","key":"n","value":"5"},{"at":0,"do":"show","key":"n","value":"5"},{"at":1,"do":"show","key":"n","value":"5"}]}
"#;

/// A script of which the second and the fourth step are settles.
const SETTLES: &str =
    r#"{"members":2,"keys":[{"key":"n","kind":"gcounter"}],"steps":[{"do":"round"},{"do":"settle"},{"do":"round"},{"do":"settle"}]}"#;

/// A script with a step of clients behind a settle.
const CLIENTS: &str =
    r#"{"members":2,"keys":[{"key":"n","kind":"gcounter"}],"steps":[{"do":"settle"},{"do":"threads","clients":[[{"do":"flush","at":0}]]}]}"#;

/// A keeper in memory for each place, of which the first calls of these numbers fail.
fn keepers(alloc: Global, failing: &[u64]) -> Result<Vec<MemoryKeeper>, Fail>
    ensures { IfOk result (λ keepers. length keepers.items ≡ 8) }
{
    let mut keepers = Vec::new(alloc);
    for _place in 0_usize..8 {
        keepers.push(MemoryKeeper::new(alloc, Vec::from_slice(alloc, failing)?))?;
    }
    Ok(keepers)
}

/// What a word, or two of them, answer of these bytes, and what is written.
fn answered(
    alloc: Global,
    line: &str,
    bytes: &[u8],
    failing: &[u64],
) -> Result<(Status, Vec<u8>), Fail> {
    let mut words = Vec::new(alloc);
    for word in line.split(' ') {
        words.push(String::from_str(alloc, word)?)?;
    }
    let bytes = Vec::from_slice(alloc, bytes)?;
    let mut source = MemorySource::new(alloc, bytes, 4096, Vec::new(alloc));
    let mut sink = MemorySink::new(alloc, 4096, Vec::new(alloc));
    let outcome = replicate_plain(
        alloc,
        &words,
        &mut source,
        &mut sink,
        keepers(alloc, failing)?,
    );
    Ok((outcome.status, Vec::from_slice(alloc, sink.bytes())?))
}

/// The trace of a script, which is lawful, over keepers whose calls of these numbers fail.
fn lawful<R: Abort>(
    rt: &R,
    alloc: Global,
    script: &[u8],
    failing: &[u64],
) -> Result<Vec<u8>, Fail> {
    let (status, trace) = answered(alloc, "trace", script, failing)?;
    assert_eq!(rt; status, Status::Done);
    let (status, verdict) = answered(alloc, "check", &trace, &[])?;
    assert_eq!(rt; verdict.as_slice(), b"lawful\n".as_slice());
    assert_eq!(rt; status, Status::Done);
    Ok(trace)
}

/// The word refuses these bytes so.
fn refused<R: Abort>(
    rt: &R,
    alloc: Global,
    script: &str,
    status: Status,
    text: &str,
) -> Result<(), Fail> {
    let (told, written) = answered(alloc, "trace", script.as_bytes(), &[])?;
    assert_eq!(rt; told, status);
    assert_eq!(rt; written.as_slice(), text.as_bytes());
    Ok(())
}

#[test]
fn a_trace(rt: HostRuntime) -> Result<(), Fail> {
    let trace = lawful(&rt, rt.alloc(), ROW.as_bytes(), &[])?;
    assert_eq!(&rt; trace.as_slice(), TRACE_OF_ROW.as_bytes());
    Ok(())
}

#[test]
fn traces_are_lawful(rt: HostRuntime) -> Result<(), Fail> {
    for script in SCRIPTS.lines() {
        lawful(&rt, rt.alloc(), script.as_bytes(), &[])?;
    }
    Ok(())
}

// The first call of each keeper clears it.
#[test]
fn so_are_those_where_stores_fail(rt: HostRuntime) -> Result<(), Fail> {
    for script in SCRIPTS.lines() {
        lawful(&rt, rt.alloc(), script.as_bytes(), &[1, 3])?;
    }
    Ok(())
}

// The generated script ends with a settle.
#[test]
fn so_is_that_of_a_generated_script(rt: HostRuntime) -> Result<(), Fail> {
    let alloc = rt.alloc();
    let (_, script) = answered(alloc, "gen 80", b"", &[])?;
    let text = String::from_utf8_lossy(alloc, &script)?;
    let (steps, _) = text
        .as_str()
        .split_once(r#",{"do":"settle"}"#)
        .ok_or("no settle")?;
    let script = format!(in alloc; "{steps}]}}")?;
    lawful(&rt, alloc, script.as_bytes(), &[])?;
    Ok(())
}

#[test]
fn settles_are_not_traced(rt: HostRuntime) -> Result<(), Fail> {
    let alloc = rt.alloc();
    refused(
        &rt,
        alloc,
        SETTLES,
        Status::NotAScript,
        "not a script: step 2 rule 16\n",
    )?;
    refused(
        &rt,
        alloc,
        CLIENTS,
        Status::NotAScript,
        "not a script: step 2 rule 14\n",
    )?;
    refused(
        &rt,
        alloc,
        "{}",
        Status::NotAScript,
        "not a script: step 0 rule 1\n",
    )?;
    refused(&rt, alloc, "", Status::NotJson, "not json\n")
}

#[test]
fn a_keeper_is_not_cleared(rt: HostRuntime) -> Result<(), Fail> {
    let (status, written) = answered(rt.alloc(), "trace", ROW.as_bytes(), &[0])?;
    assert_eq!(&rt; status, Status::ClearFailed);
    assert_eq!(&rt; written.as_slice(), b"store failed at 0\n".as_slice());
    Ok(())
}
