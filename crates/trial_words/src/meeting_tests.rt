//! Two members each wait under their locks until the other's store has begun.

use crate::flag::{Flag, Meeting, holding_keepers};
use std::process::Abort;
use std::test::*;
use top_call::Status;
use trial_rows::ran;

const SCRIPT: &str =
    r#"{"members":2,"keys":[{"key":"d","kind":"gcounter","durable":true}],"steps":[{"do":"threads","clients":[
[{"do":"update","at":0,"key":"d","op":"increment","by":1}],[{"do":"update","at":1,"key":"d","op":"increment","by":1}]]}]}"#;

const REPORT: &str =
    "1 client 0 update 0 d done\n1 client 1 update 1 d done\nfinal view 0\nmember 0 place 0 view 0\n\
d 1 known 0:1 marks -\nmember 1 place 1 view 0\nd 1 known 1:1 marks -\n";

#[test]
fn two_stores_wait_for_each_other(rt: HostRuntime) -> Result<(), Fail> {
    let alloc = rt.alloc();
    let first = Flag::new(alloc)?;
    let second = Flag::new(alloc)?;
    let at_first = Meeting {
        begun: first.again()?,
        awaited: second.again()?,
    };
    let at_second = Meeting {
        begun: second,
        awaited: first,
    };
    let keepers = holding_keepers(alloc, Some(at_first), Some(at_second))?;
    let (status, sink) = ran(&rt, alloc, SCRIPT, keepers)?;
    assert_eq!(&rt; status, Status::Done);
    assert!(&rt; sink.bytes() == REPORT.as_bytes());
    Ok(())
}
