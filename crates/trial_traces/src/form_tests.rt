//! Texts that are no trace, each with the first line that has not its form.

use crate::rows::{KEYS, LINES, TRACE, compare};
use std::test::Fail;
use trace_judged::{Judgement, judged};

const NO_JSON: &str = r#"
not json
{
not json
{"keys":[{"key":"n","kind":"gcounter"}],"lines":[]}x
not json
{"keys":[{"key":"n","kind":"gcounter"}],"lines":[{"at":1e999}]}
not json
{'keys':[],'lines':[]}
not json"#;

const WHOLE: &str = r#"5
not a trace: line 0
[]
not a trace: line 0
{"lines":[]}
not a trace: line 0
{"keys":[{"key":"n","kind":"gcounter"}]}
not a trace: line 0
{"keys":[{"key":"n","kind":"gcounter"}],"lines":[],"members":2}
not a trace: line 0
{"keys":[{"key":"n","kind":"gcounter"}],"lines":{}}
not a trace: line 0
{"keys":{"key":"n","kind":"gcounter"},"lines":[]}
not a trace: line 0
{"keys":[],"lines":[5]}
not a trace: line 0
{"keys":[{"key":"n","kind":"gcounter"}],"lines":[]}
lawful
{"keys":[{"key":"n","kind":"gcounter"}],"lines":[5],"lines":[]}
lawful"#;

const OF_KEYS: &str = r#"{"key":"n"}
not a trace: line 0
{"key":"n","kind":"gcounter","name":"n"}
not a trace: line 0
{"key":"N","kind":"gcounter"}
not a trace: line 0
{"key":"","kind":"gcounter"}
not a trace: line 0
{"key":"abcdefghijklmnopqrstuvwxyz0123456","kind":"gcounter"}
not a trace: line 0
{"key":"n","kind":"counter"}
not a trace: line 0
{"key":"n","kind":"gcounter","durable":1}
not a trace: line 0
{"key":"n","kind":"gcounter"},{"key":"n","kind":"orset"}
not a trace: line 0
{"key":"a","kind":"flag"},{"key":"b","kind":"flag"},{"key":"c","kind":"flag"},{"key":"d","kind":"flag"},{"key":"e","kind":"flag"},{"key":"f","kind":"flag"},{"key":"g","kind":"flag"},{"key":"h","kind":"flag"},{"key":"i","kind":"flag"},{"key":"j","kind":"flag"},{"key":"k","kind":"flag"},{"key":"l","kind":"flag"},{"key":"m","kind":"flag"},{"key":"n","kind":"flag"},{"key":"o","kind":"flag"},{"key":"p","kind":"flag"},{"key":"q","kind":"flag"}
not a trace: line 0
{"key":"z","kind":"flag"},{"key":"a","kind":"flag","durable":true}
lawful"#;

const OF_LINES: &str = r#"5
not a trace: line 1
{}
not a trace: line 1
{"at":0,"key":"n","op":"enable"}
not a trace: line 1
{"at":0,"do":"update","by":1,"key":"n","op":"increment"}
not a trace: line 1
{"at":255,"by":1,"do":"record","key":"n","op":"increment"}
not a trace: line 1
{"at":-1,"by":1,"do":"record","key":"n","op":"increment"}
not a trace: line 1
{"at":"0","by":1,"do":"record","key":"n","op":"increment"}
not a trace: line 1
{"at":0,"by":1,"do":"record","key":"key with spaces","op":"increment"}
not a trace: line 1
{"at":0,"by":1,"do":"record","key":"n","op":"increment","past":[[0,1]]}
not a trace: line 1
{"at":0,"do":"record","key":"n","op":"increment"}
not a trace: line 1
{"by":1,"do":"record","key":"n","op":"increment"}
not a trace: line 1
{"at":0,"by":1,"do":"record","op":"increment"}
not a trace: line 1
{"at":254,"by":1,"do":"record","key":"n","op":"increment"},{"at":254,"do":"show","key":"n","value":"1"}
lawful"#;

const OF_RECORDS: &str = r#"{"at":0,"do":"record","key":"n"}
not a trace: line 1
{"at":0,"by":1,"do":"record","key":"n","op":"grow"}
not a trace: line 1
{"at":0,"by":0,"do":"record","key":"n","op":"increment"}
not a trace: line 1
{"at":0,"by":9223372036854775808,"do":"record","key":"n","op":"increment"}
not a trace: line 1
{"at":0,"by":1.5,"do":"record","key":"n","op":"increment"}
not a trace: line 1
{"at":0,"do":"record","element":"0123456789012345678901234567890123456789012345678901234567890123x","key":"s","op":"add"}
not a trace: line 1
{"at":0,"do":"record","element":5,"key":"s","op":"remove"}
not a trace: line 1
{"at":0,"do":"record","key":"r","op":"assign","text":"a"}
not a trace: line 1
{"at":0,"do":"record","key":"r","now":9223372036854775808,"op":"assign","text":"a"}
not a trace: line 1
{"at":0,"do":"record","key":"f","op":"enable","value":true}
not a trace: line 1
{"at":0,"do":"record","id":255,"key":"n","op":"prune"}
not a trace: line 1
{"at":0,"do":"record","key":"n","op":"prune"}
not a trace: line 1
{"at":0,"do":"record","key":"n","op":"delete","by":1}
not a trace: line 1"#;

const OF_HOLDS_AND_SHOWS: &str = r#"{"at":0,"do":"hold","key":"n"}
not a trace: line 1
{"at":0,"do":"hold","key":"n","known":{"0":1}}
not a trace: line 1
{"at":0,"do":"hold","key":"n","known":[0,1]}
not a trace: line 1
{"at":0,"do":"hold","key":"n","known":[[0,1,2]]}
not a trace: line 1
{"at":0,"do":"hold","key":"n","known":[[0,0]]}
not a trace: line 1
{"at":0,"do":"hold","key":"n","known":[[0,4611686018427387905]]}
not a trace: line 1
{"at":0,"do":"hold","key":"n","known":[[255,1]]}
not a trace: line 1
{"at":0,"do":"hold","key":"n","known":[[1,1],[0,1]]}
not a trace: line 1
{"at":0,"do":"hold","key":"n","known":[[0,1],[0,2]]}
not a trace: line 1
{"at":0,"do":"hold","key":"n","known":[],"op":"prune"}
not a trace: line 1
{"at":0,"do":"show","key":"n"}
not a trace: line 1
{"at":0,"do":"show","key":"n","value":5}
not a trace: line 1
{"at":0,"do":"show","key":"n","value":"5","known":[]}
not a trace: line 1
{"at":0,"do":"hold","key":"n","known":[]}
lawful"#;

// Of two lines that have not their form the first is told, and what has not its form comes before what breaks a rule.
const FIRST: &str =
    r#"{"at":0,"do":"hold","key":"n","known":[]},{"at":300,"do":"hold","key":"n","known":[]},5
not a trace: line 2
{"at":0,"do":"hold","key":"n","known":[[0,1]]},{"at":0,"do":"hold","key":"n","known":[]},5
not a trace: line 3
{"at":0,"do":"show","key":"undeclared","value":""},{"at":0,"do":"show","key":"Undeclared","value":""}
not a trace: line 2"#;

#[test]
fn what_is_no_json_text(rt: HostRuntime) -> Result<(), Fail> {
    compare(&rt, rt.alloc(), TRACE, NO_JSON)?;
    let said = judged(rt.alloc(), b"{\"keys\":\"\xff\"}").map_err(|_| "no memory")?;
    assert_eq!(&rt; said, Judgement::NotJson);
    Ok(())
}

#[test]
fn what_is_no_trace_as_a_whole(rt: HostRuntime) -> Result<(), Fail> {
    compare(&rt, rt.alloc(), TRACE, WHOLE)?;
    compare(&rt, rt.alloc(), KEYS, OF_KEYS)
}

#[test]
fn lines_that_are_none(rt: HostRuntime) -> Result<(), Fail> {
    compare(&rt, rt.alloc(), LINES, OF_LINES)?;
    compare(&rt, rt.alloc(), LINES, OF_RECORDS)?;
    compare(&rt, rt.alloc(), LINES, OF_HOLDS_AND_SHOWS)
}

#[test]
fn the_first_that_has_not_its_form(rt: HostRuntime) -> Result<(), Fail> {
    compare(&rt, rt.alloc(), LINES, FIRST)
}
