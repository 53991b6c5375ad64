//! Scripts whose clients follow keys.

use crate::checking::check;
use std::alloc::Global;
use std::test::Fail;
use top_call::Status;
use trial_rows::{Answer, answered, called, keepers, printed, streams};

/// Shows that a delta's change is told at the first flush after it, and once.
const NOTICES: &str = r#"{"members":2,"keys":[{"key":"n","kind":"gcounter"}],"steps":[
    {"do":"subscribe","at":1,"client":7,"key":"n"},
    {"do":"update","at":0,"key":"n","op":"increment","by":5},
    {"do":"flush","at":0},
    {"do":"flush","at":1},
    {"do":"round"},
    {"do":"flush","at":1},
    {"do":"flush","at":1},
    {"do":"unsubscribe","at":1,"client":7,"key":"n"}]}"#;

const NOTICES_REPORT: &str = r#"1 subscribe 1 7 n subscribed
2 update 0 n done
3 flush 0 done sent 1:deltas/1/0
4 flush 1 done
5 deliver 0>1 0 deltas/1/0 taken
6 flush 1 done
6 notice 1 7 n 5
7 flush 1 done
8 unsubscribe 1 7 n unsubscribed
final view 0
member 0 place 0 view 0
n 5 known 0:1 marks -
member 1 place 1 view 0
n 5 known 0:1 marks -
"#;

/// Shows each answer to a request that changes nothing.
const REFUSALS: &str = r#"{"members":1,"keys":[{"key":"n","kind":"gcounter"}],"steps":[
    {"do":"subscribe","at":3,"client":1,"key":"n"},
    {"do":"subscribe","at":0,"client":1,"key":"zz"},
    {"do":"subscribe","at":0,"client":1,"key":"n"},
    {"do":"subscribe","at":0,"client":1,"key":"n"},
    {"do":"unsubscribe","at":0,"client":2,"key":"n"},
    {"do":"unsubscribe","at":0,"client":1,"key":"zz"},
    {"do":"unsubscribe","at":3,"client":1,"key":"n"}]}"#;

const REFUSALS_REPORT: &str = r#"1 subscribe 3 1 n gone
2 subscribe 0 1 zz unknown key
3 subscribe 0 1 n subscribed
4 subscribe 0 1 n already subscribed
5 unsubscribe 0 2 n not subscribed
6 unsubscribe 0 1 zz unknown key
7 unsubscribe 3 1 n gone
final view 0
member 0 place 0 view 0
n - known - marks -
"#;

/// Shows a change that comes as a whole entry.
const MERGE: &str = r#"{"members":2,"keys":[{"key":"n","kind":"gcounter"}],"steps":[
    {"do":"subscribe","at":1,"client":1,"key":"n"},
    {"do":"update","at":0,"key":"n","op":"increment","by":5,"level":"all"},
    {"do":"round"},
    {"do":"flush","at":1}]}"#;

const MERGE_REPORT: &str = r#"1 subscribe 1 1 n subscribed
2 update 0 n pending 0 sent 1:write
3 deliver 0>1 0 write taken sent 0:write-ack
4 flush 1 done
4 notice 1 1 n 5
final view 0
member 0 place 0 view 0
n 5 known 0:1 marks -
member 1 place 1 view 0
n 5 known 0:1 marks -
"#;

/// Shows a change that comes by gossip.
const GOSSIP: &str = r#"{"members":2,"keys":[{"key":"n","kind":"gcounter"}],"steps":[
    {"do":"subscribe","at":1,"client":1,"key":"n"},
    {"do":"update","at":0,"key":"n","op":"increment","by":5},
    {"do":"gossip","at":1,"to":0},
    {"do":"round"},
    {"do":"round"},
    {"do":"flush","at":1}]}"#;

const GOSSIP_REPORT: &str = r#"1 subscribe 1 1 n subscribed
2 update 0 n done
3 gossip 1 0 done sent 0:status/0
4 deliver 1>0 0 status/0 taken sent 1:gossip/1/0
5 deliver 0>1 0 gossip/1/0 taken
6 flush 1 done
6 notice 1 1 n 5
final view 0
member 0 place 0 view 0
n 5 known 0:1 marks -
member 1 place 1 view 0
n 5 known 0:1 marks -
"#;

/// Shows that other records of the same value are no news.
const SAME_VALUE: &str = r#"{"members":2,"keys":[{"key":"s","kind":"orset"}],"steps":[
    {"do":"subscribe","at":1,"client":1,"key":"s"},
    {"do":"update","at":0,"key":"s","op":"add","element":"x"},
    {"do":"flush","at":0},
    {"do":"round"},
    {"do":"flush","at":1},
    {"do":"update","at":0,"key":"s","op":"add","element":"x"},
    {"do":"flush","at":0},
    {"do":"round"},
    {"do":"flush","at":1}]}"#;

const SAME_VALUE_REPORT: &str = r#"1 subscribe 1 1 s subscribed
2 update 0 s done
3 flush 0 done sent 1:deltas/1/0
4 deliver 0>1 0 deltas/1/0 taken
5 flush 1 done
5 notice 1 1 s {"x"}
6 update 0 s done
7 flush 0 done sent 1:deltas/1/0
8 deliver 0>1 1 deltas/1/0 taken
9 flush 1 done
final view 0
member 0 place 0 view 0
s {"x"} known 0:2 marks -
member 1 place 1 view 0
s {"x"} known 0:2 marks -
"#;

/// Shows that a delete is told as the last value.
const DELETED: &str = r#"{"members":1,"keys":[{"key":"n","kind":"gcounter"}],"steps":[
    {"do":"subscribe","at":0,"client":1,"key":"n"},
    {"do":"update","at":0,"key":"n","op":"increment","by":2},
    {"do":"flush","at":0},
    {"do":"update","at":0,"key":"n","op":"delete"},
    {"do":"flush","at":0},
    {"do":"flush","at":0}]}"#;

const DELETED_REPORT: &str = r#"1 subscribe 0 1 n subscribed
2 update 0 n done
3 flush 0 done
3 notice 0 1 n 2
4 update 0 n done
5 flush 0 done
5 notice 0 1 n deleted
6 flush 0 done
final view 0
member 0 place 0 view 0
n deleted known 0:2 marks -
"#;

/// Shows that a subscription ends when its member is removed, and no other does.
const REMOVED: &str = r#"{"members":2,"keys":[{"key":"n","kind":"gcounter"}],"steps":[
    {"do":"subscribe","at":1,"client":1,"key":"n"},
    {"do":"subscribe","at":0,"client":1,"key":"n"},
    {"do":"update","at":0,"key":"n","op":"increment","by":1},
    {"do":"remove","id":1},
    {"do":"flush","at":1},
    {"do":"unsubscribe","at":1,"client":1,"key":"n"},
    {"do":"flush","at":0}]}"#;

const REMOVED_REPORT: &str = r#"1 subscribe 1 1 n subscribed
2 subscribe 0 1 n subscribed
3 update 0 n done
4 remove 1 view 1
5 flush 1 gone
6 unsubscribe 1 1 n gone
7 flush 0 done sent 1:deltas/1/0
7 notice 0 1 n 1
final view 1
member 0 place 0 view 0
n 1 known 0:1 marks -
"#;

/// Shows that who comes back under another identity has no subscriptions.
const RESTARTED: &str =
    r#"{"members":1,"keys":[{"key":"d","kind":"gcounter","durable":true}],"steps":[
    {"do":"subscribe","at":0,"client":1,"key":"d"},
    {"do":"update","at":0,"key":"d","op":"increment","by":1},
    {"do":"flush","at":0},
    {"do":"restart","id":0},
    {"do":"flush","at":1},
    {"do":"subscribe","at":1,"client":1,"key":"d"},
    {"do":"flush","at":1}]}"#;

const RESTARTED_REPORT: &str = r#"1 subscribe 0 1 d subscribed
2 update 0 d done
3 flush 0 done
3 notice 0 1 d 1
4 restart 0 id 1 view 1
5 flush 1 done
6 subscribe 1 1 d subscribed
7 flush 1 done
7 notice 1 1 d 1
final view 1
member 1 place 0 view 1
d 1 known 0:1 marks -
"#;

/// Shows that who subscribes again is told again.
const AGAIN: &str = r#"{"members":1,"keys":[{"key":"n","kind":"gcounter"}],"steps":[
    {"do":"subscribe","at":0,"client":1,"key":"n"},
    {"do":"update","at":0,"key":"n","op":"increment","by":1},
    {"do":"flush","at":0},
    {"do":"unsubscribe","at":0,"client":1,"key":"n"},
    {"do":"flush","at":0},
    {"do":"subscribe","at":0,"client":1,"key":"n"},
    {"do":"flush","at":0}]}"#;

const AGAIN_REPORT: &str = r#"1 subscribe 0 1 n subscribed
2 update 0 n done
3 flush 0 done
3 notice 0 1 n 1
4 unsubscribe 0 1 n unsubscribed
5 flush 0 done
6 subscribe 0 1 n subscribed
7 flush 0 done
7 notice 0 1 n 1
final view 0
member 0 place 0 view 0
n 1 known 0:1 marks -
"#;

/// Shows that notices come by keys in byte order, and then by clients.
const IN_ORDER: &str =
    r#"{"members":1,"keys":[{"key":"a","kind":"gcounter"},{"key":"n","kind":"gcounter"}],"steps":[
    {"do":"subscribe","at":0,"client":4,"key":"n"},
    {"do":"subscribe","at":0,"client":2,"key":"a"},
    {"do":"subscribe","at":0,"client":1,"key":"n"},
    {"do":"update","at":0,"key":"n","op":"increment","by":1},
    {"do":"update","at":0,"key":"a","op":"increment","by":2},
    {"do":"flush","at":0},
    {"do":"subscribe","at":0,"client":3,"key":"n"},
    {"do":"flush","at":0}]}"#;

const IN_ORDER_REPORT: &str = r#"1 subscribe 0 4 n subscribed
2 subscribe 0 2 a subscribed
3 subscribe 0 1 n subscribed
4 update 0 n done
5 update 0 a done
6 flush 0 done
6 notice 0 2 a 2
6 notice 0 1 n 1
6 notice 0 4 n 1
7 subscribe 0 3 n subscribed
8 flush 0 done
8 notice 0 3 n 1
final view 0
member 0 place 0 view 0
a 2 known 0:1 marks -
n 1 known 0:1 marks -
"#;

/// The scripts, with their reports.
const ROWS: &[(&str, &str)] = &[
    (NOTICES, NOTICES_REPORT),
    (REFUSALS, REFUSALS_REPORT),
    (MERGE, MERGE_REPORT),
    (GOSSIP, GOSSIP_REPORT),
    (SAME_VALUE, SAME_VALUE_REPORT),
    (DELETED, DELETED_REPORT),
    (REMOVED, REMOVED_REPORT),
    (RESTARTED, RESTARTED_REPORT),
    (AGAIN, AGAIN_REPORT),
    (IN_ORDER, IN_ORDER_REPORT),
];

/// What the word `watch` answers of a script.
fn watched(alloc: Global, script: &str) -> Result<Answer, Fail> {
    let streams = streams(alloc, script.as_bytes(), &[], &[])?;
    answered(alloc, "watch", streams, keepers(alloc, 0, &[])?)
}

#[test]
fn clients_are_told_of_changes(rt: HostRuntime) -> Result<(), Fail> {
    let alloc = rt.alloc();
    for (script, report) in ROWS {
        let answer = watched(alloc, script)?;
        check(&rt, &answer, Status::Done, report.as_bytes(), *script);
    }
    Ok(())
}

#[test]
fn a_script_without_subscriptions_is_played_as_by_plain(rt: HostRuntime) -> Result<(), Fail> {
    let alloc = rt.alloc();
    let script = r#"{"members":2,"keys":[{"key":"n","kind":"gcounter"}],"steps":[
        {"do":"update","at":0,"key":"n","op":"increment","by":5},{"do":"flush","at":0},{"do":"round"}]}"#;
    let (status, sink) = printed(alloc, script, keepers(alloc, 0, &[])?)?;
    let answer = watched(alloc, script)?;
    check(&rt, &answer, status, sink.bytes(), script);
    Ok(())
}

/// Scripts that `watch` refuses, each with the rule that is told.
const REFUSED: &[(&str, &str)] = &[
    (
        r#"{"do":"threads","clients":[[{"do":"flush","at":0}]]}"#,
        "not a script: step 1 rule 14\n",
    ),
    (
        r#"{"do":"subscribe","at":0,"client":4294967296,"key":"n"}"#,
        "not a script: step 1 rule 15\n",
    ),
    (
        r#"{"do":"unsubscribe","at":0,"client":"7","key":"n"}"#,
        "not a script: step 1 rule 15\n",
    ),
    (
        r#"{"do":"subscribe","at":255,"client":-1,"key":"N"}"#,
        "not a script: step 1 rule 7\n",
    ),
    (
        r#"{"do":"subscribe","at":0,"client":-1,"key":"N"}"#,
        "not a script: step 1 rule 8\n",
    ),
    (
        r#"{"do":"subscribe","at":0,"key":"n"}"#,
        "not a script: step 1 rule 6\n",
    ),
];

/// A script of one step.
fn of_step(alloc: Global, step: &str) -> Result<String, Fail> {
    Ok(format!(in alloc;
        r#"{{"members":1,"keys":[{{"key":"n","kind":"gcounter"}}],"steps":[{step}]}}"#
    )?)
}

#[test]
fn rules_of_requests_are_told_in_order(rt: HostRuntime) -> Result<(), Fail> {
    let alloc = rt.alloc();
    for (step, told) in REFUSED {
        let script = of_step(alloc, step)?;
        let answer = watched(alloc, script.as_str())?;
        check(&rt, &answer, Status::NotAScript, told.as_bytes(), *step);
    }
    Ok(())
}

#[test]
fn no_other_word_plays_a_request(rt: HostRuntime) -> Result<(), Fail> {
    let alloc = rt.alloc();
    let told = b"not a script: step 1 rule 5\n";
    for step in [
        r#"{"do":"subscribe","at":0,"client":1,"key":"n"}"#,
        r#"{"do":"unsubscribe","at":0,"client":-1}"#,
    ] {
        let script = of_step(alloc, step)?;
        let plain = printed(alloc, script.as_str(), keepers(alloc, 0, &[])?)?;
        check(&rt, &plain, Status::NotAScript, told, step);
        let ran = called(&rt, alloc, "run", script.as_str(), keepers(alloc, 0, &[])?)?;
        check(&rt, &ran, Status::NotAScript, told, step);
    }
    Ok(())
}
