//! Eight clients that write and read at all of eight members. What a get shows depends on the schedule.

use std::alloc::Global;
use std::process::Abort;
use std::test::*;
use top_call::Status;
use trial_rows::{keepers, ran};

/// How often each client increments the counter at each member.
const TIMES: u32 = 16;

/// The script. It settles after the clients.
fn script(alloc: Global) -> Result<String, Fail> {
    let mut text = String::new(alloc);
    text.push_str(
        r#"{"members":8,"keys":[{"key":"n","kind":"gcounter"}],"steps":[{"do":"threads","clients":["#,
    )?;
    for client in 0..8_u32 {
        text.push_str(if client == 0 { "[" } else { ",[" })?;
        for at in 0..8_u32 {
            let comma = if at == 0 { "" } else { "," };
            write!(
                text,
                r#"{comma}{{"do":"update","at":{at},"key":"n","op":"increment","by":1,"times":{TIMES}}},{{"do":"flush","at":{at}}},{{"do":"get","at":{at},"key":"n"}}"#
            )?;
        }
        text.push_str("]")?;
    }
    text.push_str(r#"]},{"do":"settle"}]}"#)?;
    Ok(text)
}

/// How the lines of the clients begin, one a line.
fn beginnings(alloc: Global) -> Result<String, Fail> {
    let mut text = String::new(alloc);
    for client in 0..8_u32 {
        for at in 0..8_u32 {
            for _time in 0..TIMES {
                writeln!(text, "1 client {client} update {at} n done")?;
            }
            writeln!(text, "1 client {client} flush {at} done")?;
            writeln!(text, "1 client {client} get {at} n value ")?;
        }
    }
    Ok(text)
}

/// What the members hold after the settle.
fn finals(alloc: Global) -> Result<String, Fail> {
    let mut text = String::new(alloc);
    text.push_str("final view 0\n")?;
    for at in 0..8_u32 {
        writeln!(text, "member {at} place {at} view 0")?;
        text.push_str("n 1024 known 0:128 1:128 2:128 3:128 4:128 5:128 6:128 7:128 marks -\n")?;
    }
    Ok(text)
}

/// Whether the report has lines that begin so, a line of the settle, and then this.
fn is_report(report: &str, beginnings: &str, finals: &str) -> bool {
    let mut lines = report.lines();
    for beginning in beginnings.lines() {
        match lines.next() {
            Some(line) if line.starts_with(beginning) => {}
            _ => return false,
        }
    }
    match lines.next() {
        Some(line) if line.starts_with("2 settle done messages ") => {}
        _ => return false,
    }
    for wanted in finals.lines() {
        if lines.next() != Some(wanted) {
            return false;
        }
    }
    lines.next().is_none()
}

#[test]
fn clients_write_and_read_everywhere(rt: HostRuntime) -> Result<(), Fail> {
    let alloc = rt.alloc();
    let script = script(alloc)?;
    let beginnings = beginnings(alloc)?;
    let finals = finals(alloc)?;
    let (status, sink) = ran(&rt, alloc, script.as_str(), keepers(alloc, 0, &[])?)?;
    assert_eq!(&rt; status, Status::Done);
    let report = str::from_utf8(sink.bytes()).map_err(|_| "no text")?;
    assert!(&rt; is_report(report, beginnings.as_str(), finals.as_str()));
    Ok(())
}
