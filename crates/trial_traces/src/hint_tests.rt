//! The line for a person: what has not its form, or who does what that breaks a rule.

use crate::rows::{Frame, KEYS, LINES, TRACE};
use std::alloc::Global;
use std::process::Abort;
use std::test::Fail;
use trace_hints::hint;

const WHOLE: &str = r#"5
not a trace: 5 is no object
{"lines":[]}
not a trace: "keys" is missing
{"keys":[{"key":"n","kind":"gcounter"}],"lines":[],"members":2}
not a trace: "members" is no name of a trace
{"keys":[],"lines":[]}
not a trace: "keys" is [], not a list of 1 to 16 keys
{"keys":[{"key":"n","kind":"gcounter"}],"lines":5}
not a trace: "lines" is 5, not a list"#;

const OF_KEYS: &str = r#"{"key":"n","kind":"gcounter"},5
not a trace: key 2: 5 is no object
{"key":"n","kind":"gcounter","name":"n"}
not a trace: key 1: "name" is no name of a key
{"key":"n"}
not a trace: key 1: "kind" is missing
{"key":"N","kind":"gcounter"}
not a trace: key 1: "key" is "N", not 1 to 32 of a-z, 0-9, _ and -
{"key":"n","kind":"counter"}
not a trace: key 1: "kind" is "counter", not gcounter, pncounter, gset, flag, lwwregister or orset
{"key":"n","kind":"gcounter","durable":1}
not a trace: key 1: "durable" is 1, not true or false
{"key":"n","kind":"gcounter"},{"key":"n","kind":"orset"}
not a trace: key 2: "n" is declared already"#;

const OF_LINES: &str = r#"5
not a trace: line 1: 5 is no object
{"at":0,"key":"n"}
not a trace: line 1: "do" is missing
{"at":0,"do":"update","by":1,"key":"n","op":"increment"}
not a trace: line 1: "do" is "update", not record, hold or show
{"at":0,"do":"record","key":"n"}
not a trace: line 1: "op" is missing
{"at":0,"by":1,"do":"record","key":"n","op":"grow"}
not a trace: line 1: "op" is "grow", not increment, decrement, add, remove, enable, assign, delete or prune
{"at":300,"by":1,"do":"record","key":"n","op":"increment"}
not a trace: line 1: "at" is 300, not a whole number from 0 to 254
{"at":0,"by":0,"do":"record","key":"n","op":"increment"}
not a trace: line 1: "by" is 0, not a whole number from 1 to 2^63 - 1
{"at":0,"do":"record","key":"r","now":-1,"op":"assign","text":"a"}
not a trace: line 1: "now" is -1, not a whole number from 0 to 2^63 - 1
{"at":0,"do":"record","element":5,"key":"s","op":"add"}
not a trace: line 1: "element" is 5, not a text of at most 64 bytes
{"at":0,"do":"record","key":"n","op":"prune","id":255}
not a trace: line 1: "id" is 255, not a whole number from 0 to 254
{"at":0,"do":"hold","key":"n","known":[]},{"at":0,"do":"hold","key":"n","known":[[1,1],[0,1]]}
not a trace: line 2: "known" is [[1,1],[0,1]], not pairs of an identity, rising, and a number from 1
{"at":0,"do":"hold","key":"n","known":[],"past":[]}
not a trace: line 1: "past" is no name of a hold
{"at":0,"do":"show","key":"n","value":5}
not a trace: line 1: "value" is 5, not a text"#;

const OF_RULES: &str = r#"{"at":0,"by":1,"do":"record","key":"x","op":"increment"}
broken: line 1, record of x at 0: the key is not declared (rule 1)
{"at":0,"by":1,"do":"record","key":"n","op":"decrement"}
broken: line 1, record of n at 0: the operation is none of the key's kind, or the member holds a delete (rule 1)
{"at":0,"do":"record","id":1,"key":"n","op":"prune"}
broken: line 1, record of n at 0: it prunes the member itself, one of which the member holds no record, or one that it has pruned already (rule 1)
{"at":7,"do":"hold","key":"n","known":[[0,1]]}
broken: line 1, hold of n at 7: it forgets what the member held, counts a record that no earlier line made, or lacks the past of one that it counts (rule 2)
{"at":3,"by":1,"do":"record","key":"n","op":"increment"},{"at":0,"do":"hold","key":"n","known":[[3,1]]},{"at":0,"do":"record","id":3,"key":"n","op":"prune"},{"at":3,"do":"hold","key":"n","known":[[0,1],[3,1]]},{"at":3,"by":1,"do":"record","key":"n","op":"increment"}
broken: line 5, record of n at 3: the member then holds more of a pruned identity than the prune saw, or a second prune of it (rule 3)
{"at":0,"do":"show","key":"n","value":"1"}
broken: line 1, show of n at 0: the value is not the text of what the held records mean, or the member holds none (rule 4)"#;

/// Compares the hints of a table, which has a line for each text and one for its hint, with the hints that are told.
fn compare<R: Abort>(rt: &R, alloc: Global, frame: Frame, rows: &str) -> Result<(), Fail> {
    let Frame { front, back } = frame;
    let mut lines = rows.lines();
    while let Some(text) = lines.next() {
        let wanted = lines.next().ok_or("a text without a hint")?;
        let trace = format!(in alloc; "{front}{text}{back}")?;
        let hint = hint(alloc, trace.as_bytes()).ok_or("no hint")?;
        assert_eq!(rt; hint.as_str(), wanted);
    }
    Ok(())
}

#[test]
fn what_has_not_its_form(rt: HostRuntime) -> Result<(), Fail> {
    compare(&rt, rt.alloc(), TRACE, WHOLE)?;
    compare(&rt, rt.alloc(), KEYS, OF_KEYS)?;
    compare(&rt, rt.alloc(), LINES, OF_LINES)
}

#[test]
fn who_breaks_which_rule(rt: HostRuntime) -> Result<(), Fail> {
    compare(&rt, rt.alloc(), LINES, OF_RULES)
}

#[test]
fn nothing_is_told_of_what_is_no_json_or_lawful(rt: HostRuntime) -> Result<(), Fail> {
    let alloc = rt.alloc();
    for text in [
        "",
        "{",
        r#"{"keys":[{"key":"n","kind":"gcounter"}],"lines":[]}"#,
    ] {
        assert!(&rt; hint(alloc, text.as_bytes()).is_none());
    }
    Ok(())
}
