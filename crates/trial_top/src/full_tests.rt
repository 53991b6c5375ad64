//! A member that makes its last step: an operation that it opens then stays open.

use crate::running::{compare, push_lines};
use std::alloc::Global;
use std::process::Abort;
use std::test::*;

/// The script of a client that makes 16,383 updates at a member, in sixteen steps, and then a majority update and a get.
fn script(alloc: Global) -> Result<String, Fail> {
    let mut text = String::new(alloc);
    text.push_str(r#"{"members":2,"keys":[{"key":"n","kind":"gcounter"}],"steps":["#)?;
    push_lines(
        &mut text,
        r#"{"do":"threads","clients":[[{"do":"update","at":0,"key":"n","op":"increment","by":1,"times":1024}]]},"#,
        15,
    )?;
    text.push_str(
        r#"{"do":"threads","clients":[[{"do":"update","at":0,"key":"n","op":"increment","by":1,"times":1022}]]},"#,
    )?;
    text.push_str(
        r#"{"do":"threads","clients":[[{"do":"update","at":0,"key":"n","op":"increment","by":1},
{"do":"update","at":0,"key":"n","op":"increment","by":1,"level":"majority"},{"do":"get","at":0,"key":"n"}]]}]}"#,
    )?;
    Ok(text)
}

/// Its report.
fn report(alloc: Global) -> Result<String, Fail> {
    let mut text = String::new(alloc);
    for step in 1..16_u32 {
        for _time in 0..1024 {
            writeln!(text, "{step} client 0 update 0 n done")?;
        }
    }
    push_lines(&mut text, "16 client 0 update 0 n done\n", 1022)?;
    text.push_str(
        "17 client 0 update 0 n done\n17 client 0 update 0 n pending 0 sent 1:write open 0\n",
    )?;
    text.push_str(
        "17 client 0 get 0 n history full\nfinal view 0\nmember 0 place 0 view 0\nn 16384 known 0:16384 marks -\n",
    )?;
    text.push_str("member 1 place 1 view 0\nn 16384 known 0:16384 marks -\n")?;
    Ok(text)
}

#[test]
fn an_operation_stays_open_at_a_full_member(rt: HostRuntime) -> Result<(), Fail> {
    let alloc = rt.alloc();
    let script = script(alloc)?;
    let report = report(alloc)?;
    compare(&rt, alloc, script.as_str(), &[], report.as_str())
}
