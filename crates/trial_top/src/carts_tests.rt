//! Carts of a shop: a member restarts, one leaves and is pruned, and four clients count hits at once.

use crate::running::{compare, push_lines};
use std::alloc::Global;
use std::process::Abort;
use std::test::*;

const CARTS: &str =
    r#"{"members":5,"keys":[{"key":"cart-ann","kind":"orset","durable":true},{"key":"cart-bob","kind":"orset","durable":true},
{"key":"cart-eve","kind":"orset","durable":true},{"key":"hits","kind":"gcounter"}],"steps":[
{"do":"update","at":0,"key":"cart-ann","op":"add","element":"milk"},{"do":"update","at":1,"key":"cart-ann","op":"add","element":"bread"},
{"do":"update","at":2,"key":"cart-bob","op":"add","element":"tea"},{"do":"update","at":3,"key":"cart-eve","op":"add","element":"rice 1 kg"},
{"do":"flush","at":0},{"do":"lose","from":0,"to":3},{"do":"lose","from":0,"to":4},{"do":"flush","at":3},{"do":"round"},
{"do":"update","at":1,"key":"cart-ann","op":"remove","element":"milk"},{"do":"restart","id":4},{"do":"remove","id":3},{"do":"settle"},
{"do":"threads","clients":[
[{"do":"update","at":0,"key":"hits","op":"increment","by":1,"times":200}],[{"do":"update","at":1,"key":"hits","op":"increment","by":1,"times":200}],
[{"do":"update","at":2,"key":"hits","op":"increment","by":1,"times":200}],[{"do":"update","at":5,"key":"hits","op":"increment","by":1,"times":200}]]},
{"do":"settle"}]}"#;

const BEFORE: &str =
    "1 update 0 cart-ann done\n2 update 1 cart-ann done\n3 update 2 cart-bob done\n4 update 3 cart-eve done\n\
5 flush 0 done sent 1:deltas/1/0 2:deltas/1/0 3:deltas/1/0 4:deltas/1/0\n6 lose 0>3 0 lost\n7 lose 0>4 0 lost\n\
8 flush 3 done sent 0:deltas/1/0 1:deltas/1/0 2:deltas/1/0 4:deltas/1/0\n9 deliver 0>1 0 deltas/1/0 taken\n\
9 deliver 0>2 0 deltas/1/0 taken\n9 deliver 3>0 0 deltas/1/0 taken\n9 deliver 3>1 0 deltas/1/0 taken\n\
9 deliver 3>2 0 deltas/1/0 taken\n9 deliver 3>4 0 deltas/1/0 taken\n10 update 1 cart-ann done\n\
11 restart 4 id 5 view 1\n12 remove 3 view 2\n13 settle done messages 30 blocked 0\n";

const EACH_HOLDS: &str =
    "cart-ann {\"bread\"} known 0:1 1:2 marks -\ncart-bob {\"tea\"} known 2:1 marks -\n\
cart-eve {\"rice 1 kg\"} known 0:1 3:1 marks 3>0@1\nhits 800 known 0:200 1:200 2:200 5:200 marks -\n";

/// The report.
fn report(alloc: Global) -> Result<String, Fail> {
    let mut text = String::from_str(alloc, BEFORE)?;
    push_lines(&mut text, "14 client 0 update 0 hits done\n", 200)?;
    push_lines(&mut text, "14 client 1 update 1 hits done\n", 200)?;
    push_lines(&mut text, "14 client 2 update 2 hits done\n", 200)?;
    push_lines(&mut text, "14 client 3 update 5 hits done\n", 200)?;
    text.push_str("15 settle done messages 22 blocked 0\nfinal view 2\n")?;
    for member in [
        "member 0 place 0 view 2\n",
        "member 1 place 1 view 2\n",
        "member 2 place 2 view 2\n",
        "member 5 place 4 view 2\n",
    ] {
        text.push_str(member)?;
        text.push_str(EACH_HOLDS)?;
    }
    Ok(text)
}

#[test]
fn carts(rt: HostRuntime) -> Result<(), Fail> {
    let report = report(rt.alloc())?;
    compare(&rt, rt.alloc(), CARTS, &[], report.as_str())
}
