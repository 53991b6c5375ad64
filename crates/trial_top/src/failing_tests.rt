//! Each call of a source, of a sink and of a keeper fails.

use crate::checking::check;
use crate::prune_tests::{A_PRUNE, A_PRUNE_REPORT};
use crate::settle_tests::{A_RESTART, CARTS};
use std::alloc::Global;
use std::test::Fail;
use top_call::Status;
use trial_rows::{Answer, answered, keepers, printed, streams};

// The keeper of place 1 is called six times: a clear at the start, stores at steps 1 and 2, a load at 3, a store at 5, a load at 6.
const SCRIPT: &str = r#"{"members":2,"keys":[{"key":"d","kind":"gcounter","durable":true}],"steps":[
    {"do":"update","at":1,"key":"d","op":"increment","by":1},
    {"do":"update","at":1,"key":"d","op":"increment","by":2},
    {"do":"restart","id":1},
    {"do":"get","at":2,"key":"d"},
    {"do":"update","at":2,"key":"d","op":"increment","by":5},
    {"do":"restart","id":2},
    {"do":"get","at":3,"key":"d"}]}"#;

const NOT_CLEARED: &str = "store failed at 1\n";

// The next store has all records.
const FIRST_STORE_FAILS: &str = r#"1 update 1 d store failed
2 update 1 d done
3 restart 1 id 2 view 1
4 get 2 d value 3
5 update 2 d done
6 restart 2 id 3 view 2
7 get 3 d value 8
final view 2
member 0 place 0 view 0
d - known - marks -
member 3 place 1 view 2
d 8 known 1:2 2:1 marks -
"#;

const SECOND_STORE_FAILS: &str = r#"1 update 1 d done
2 update 1 d store failed
3 restart 1 id 2 view 1
4 get 2 d value 1
5 update 2 d done
6 restart 2 id 3 view 2
7 get 3 d value 6
final view 2
member 0 place 0 view 0
d - known - marks -
member 3 place 1 view 2
d 6 known 1:1 2:1 marks -
"#;

const FIRST_LOAD_FAILS: &str = r#"1 update 1 d done
2 update 1 d done
3 restart 1 load failed
4 get 2 d gone
5 update 2 d gone
6 restart 2 gone
7 get 3 d gone
final view 0
member 0 place 0 view 0
d - known - marks -
member 1 place 1 view 0
d 3 known 1:2 marks -
"#;

const THIRD_STORE_FAILS: &str = r#"1 update 1 d done
2 update 1 d done
3 restart 1 id 2 view 1
4 get 2 d value 3
5 update 2 d store failed
6 restart 2 id 3 view 2
7 get 3 d value 3
final view 2
member 0 place 0 view 0
d - known - marks -
member 3 place 1 view 2
d 3 known 1:2 marks -
"#;

const SECOND_LOAD_FAILS: &str = r#"1 update 1 d done
2 update 1 d done
3 restart 1 id 2 view 1
4 get 2 d value 3
5 update 2 d done
6 restart 2 load failed
7 get 3 d gone
final view 1
member 0 place 0 view 0
d - known - marks -
member 2 place 1 view 1
d 8 known 1:2 2:1 marks -
"#;

const NONE_FAILS: &str = r#"1 update 1 d done
2 update 1 d done
3 restart 1 id 2 view 1
4 get 2 d value 3
5 update 2 d done
6 restart 2 id 3 view 2
7 get 3 d value 8
final view 2
member 0 place 0 view 0
d - known - marks -
member 3 place 1 view 2
d 8 known 1:2 2:1 marks -
"#;

/// A call that fails, and what is then answered and printed.
const CALLS: &[(u64, Status, &str)] = &[
    (0, Status::ClearFailed, NOT_CLEARED),
    (1, Status::Done, FIRST_STORE_FAILS),
    (2, Status::Done, SECOND_STORE_FAILS),
    (3, Status::Done, FIRST_LOAD_FAILS),
    (4, Status::Done, THIRD_STORE_FAILS),
    (5, Status::Done, SECOND_LOAD_FAILS),
    (6, Status::Done, NONE_FAILS),
];

#[test]
fn each_call_of_a_keeper_fails(rt: HostRuntime) -> Result<(), Fail> {
    let alloc = rt.alloc();
    for (call, status, report) in CALLS {
        let answer = printed(alloc, SCRIPT, keepers(alloc, 1, &[*call])?)?;
        check(&rt, &answer, *status, report.as_bytes(), *call);
    }
    Ok(())
}

/// What a script answers, where the source and the sink fail at the calls named.
fn answer(alloc: Global, script: &str, reads: &[u64], writes: &[u64]) -> Result<Answer, Fail> {
    let streams = streams(alloc, script.as_bytes(), reads, writes)?;
    answered(alloc, "plain", streams, keepers(alloc, 0, &[])?)
}

// The source gives seven bytes a call, and its last call gives none.
#[test]
fn each_call_of_the_source_fails(rt: HostRuntime) -> Result<(), Fail> {
    let alloc = rt.alloc();
    let calls = CARTS.len().div_ceil(7) as u64 + 1;
    for part in 0..200u64 {
        let call = part * calls / 200;
        let answer = answer(alloc, CARTS, &[call], &[])?;
        check(&rt, &answer, Status::ReadFailed, b"", call);
    }
    Ok(())
}

// The sink takes sixteen bytes a call.
#[test]
fn each_call_of_the_sink_fails(rt: HostRuntime) -> Result<(), Fail> {
    let report = A_PRUNE_REPORT.as_bytes();
    let mut written: usize = 0;
    for call in 0..report.len().div_ceil(16) as u64 {
        let answer = answer(rt.alloc(), A_PRUNE, &[], &[call])?;
        check(
            &rt,
            &answer,
            Status::WriteFailed,
            &report[..written.min(report.len())],
            call,
        );
        written = written.saturating_add(16);
    }
    Ok(())
}

#[test]
fn a_failing_keeper_ends_no_settle(rt: HostRuntime) -> Result<(), Fail> {
    let alloc = rt.alloc();
    for call in 0..10u64 {
        let answer = printed(alloc, A_RESTART, keepers(alloc, 1, &[call])?)?;
        let again = printed(alloc, A_RESTART, keepers(alloc, 1, &[call])?)?;
        let status = if call == 0 {
            Status::ClearFailed
        } else {
            Status::Done
        };
        check(&rt, &answer, status, again.1.bytes(), call);
        check(&rt, &again, status, answer.1.bytes(), call);
    }
    Ok(())
}
