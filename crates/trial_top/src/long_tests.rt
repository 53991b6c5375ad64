//! Eight clients that make 8,192 calls at one member, and a report of over a million bytes.

use crate::running::{compare, push_lines};
use std::alloc::Global;
use std::process::Abort;
use std::test::*;

/// How often a client gets the key in one step.
const TIMES: u32 = 1024;

/// A step in which eight clients get the key, all at the first member or each at a member of its own.
fn push_step(text: &mut String, together: bool) -> Result<(), Fail> {
    text.push_str(r#"{"do":"threads","clients":["#)?;
    for client in 0..8_u32 {
        let comma = if client == 0 { "" } else { "," };
        let at = if together { 0 } else { client };
        write!(
            text,
            r#"{comma}[{{"do":"get","at":{at},"key":"n","times":{TIMES}}}]"#
        )?;
    }
    text.push_str("]}")?;
    Ok(())
}

/// The script: the clients at one member, and then four times each at its own.
fn script(alloc: Global) -> Result<String, Fail> {
    let mut text = String::new(alloc);
    text.push_str(r#"{"members":8,"keys":[{"key":"n","kind":"gcounter"}],"steps":["#)?;
    push_step(&mut text, true)?;
    for _step in 2..6_u32 {
        text.push_str(",")?;
        push_step(&mut text, false)?;
    }
    text.push_str("]}")?;
    Ok(text)
}

/// The lines of one client in one step.
fn push_client(
    alloc: Global,
    text: &mut String,
    step: u32,
    client: u32,
    at: u32,
) -> Result<(), Fail> {
    let line = format!(in alloc; "{step} client {client} get {at} n not found\n")?;
    push_lines(text, line.as_str(), TIMES)
}

/// Its report, in every schedule.
fn report(alloc: Global) -> Result<String, Fail> {
    let mut text = String::new(alloc);
    for step in 1..6_u32 {
        for client in 0..8_u32 {
            let at = if step == 1 { 0 } else { client };
            push_client(alloc, &mut text, step, client, at)?;
        }
    }
    text.push_str("final view 0\n")?;
    for at in 0..8_u32 {
        writeln!(text, "member {at} place {at} view 0\nn - known - marks -")?;
    }
    Ok(text)
}

#[test]
fn writes_a_report_of_over_a_million_bytes(rt: HostRuntime) -> Result<(), Fail> {
    let alloc = rt.alloc();
    let script = script(alloc)?;
    let report = report(alloc)?;
    assert!(&rt; report.len() > 1_048_576);
    compare(&rt, alloc, script.as_str(), &[], report.as_str())
}
