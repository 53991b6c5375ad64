//! Eight clients at eight members.

use crate::running::{compare, push_lines};
use std::alloc::Global;
use std::process::Abort;
use std::test::*;

/// The script of eight clients, each of which increments a counter at a member of its own 512 times and gets it as often.
fn script(alloc: Global) -> Result<String, Fail> {
    let mut text = String::new(alloc);
    text.push_str(
        r#"{"members":8,"keys":[{"key":"n","kind":"gcounter"}],"steps":[{"do":"threads","clients":["#,
    )?;
    for at in 0..8_u32 {
        let comma = if at == 0 { "" } else { "," };
        write!(
            text,
            r#"{comma}[{{"do":"update","at":{at},"key":"n","op":"increment","by":1,"times":512}},{{"do":"get","at":{at},"key":"n","times":512}}]"#
        )?;
    }
    text.push_str(r#"]},{"do":"settle"}]}"#)?;
    Ok(text)
}

/// Its report, in every schedule.
fn report(alloc: Global) -> Result<String, Fail> {
    let mut text = String::new(alloc);
    for at in 0..8_u32 {
        for _time in 0..512 {
            writeln!(text, "1 client {at} update {at} n done")?;
        }
        for _time in 0..512 {
            writeln!(text, "1 client {at} get {at} n value 512")?;
        }
    }
    text.push_str("2 settle done messages 54 blocked 0\nfinal view 0\n")?;
    for at in 0..8_u32 {
        writeln!(text, "member {at} place {at} view 0")?;
        push_lines(
            &mut text,
            "n 4096 known 0:512 1:512 2:512 3:512 4:512 5:512 6:512 7:512 marks -\n",
            1,
        )?;
    }
    Ok(text)
}

#[test]
fn eight_clients_make_all_their_commands(rt: HostRuntime) -> Result<(), Fail> {
    let alloc = rt.alloc();
    let script = script(alloc)?;
    let report = report(alloc)?;
    compare(&rt, alloc, script.as_str(), &[], report.as_str())
}
