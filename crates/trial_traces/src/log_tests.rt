//! Worked traces, and logs of other systems, written by hand.

use crate::rows::{LINES, TRACE, compare};
use std::test::Fail;

const WORKED: &str =
    r#"{"keys":[{"key":"n","kind":"gcounter"}],"lines":[{"at":0,"by":5,"do":"record","key":"n","op":"increment"},{"at":1,"do":"hold","key":"n","known":[[0,1]]},{"at":1,"do":"show","key":"n","value":"5"},{"at":0,"do":"show","key":"n","value":"5"},{"at":1,"do":"show","key":"n","value":"5"}]}
lawful
{"keys":[{"key":"n","kind":"gcounter"}],"lines":[{"at":0,"by":5,"do":"record","key":"n","op":"increment"},{"at":1,"do":"hold","key":"n","known":[[0,1]]},{"at":1,"do":"show","key":"n","value":"6"},{"at":0,"do":"show","key":"n","value":"5"},{"at":1,"do":"show","key":"n","value":"5"}]}
broken: line 3 rule 4
{"keys":[{"key":"n","kind":"gcounter"}],"lines":[{"at":0,"by":5,"do":"record","key":"n","op":"increment"},{"at":1,"do":"hold","key":"n","known":[[0,2]]},{"at":1,"do":"show","key":"n","value":"5"},{"at":0,"do":"show","key":"n","value":"5"},{"at":1,"do":"show","key":"n","value":"5"}]}
broken: line 2 rule 2
{"lines":[]}
not a trace: line 0"#;

// A share that a member left, a deleted key, and an add and a remove that did not see each other.
const OTHER_RUNS: &str =
    r#"{"at":3,"by":10,"do":"record","key":"n","op":"increment"},{"at":0,"do":"hold","key":"n","known":[[3,1]]},{"at":1,"do":"hold","key":"n","known":[[3,1]]},{"at":2,"do":"hold","key":"n","known":[[3,1]]},{"at":0,"do":"record","id":3,"key":"n","op":"prune"},{"at":2,"do":"hold","key":"n","known":[[0,1],[3,1]]},{"at":1,"do":"hold","key":"n","known":[[0,1],[3,1]]},{"at":1,"do":"show","key":"n","value":"10"},{"at":1,"do":"show","key":"n","value":"10"},{"at":2,"do":"show","key":"n","value":"10"}
lawful
{"at":0,"by":5,"do":"record","key":"n","op":"increment"},{"at":0,"do":"show","key":"n","value":"5"},{"at":0,"do":"record","key":"n","op":"delete"},{"at":0,"do":"show","key":"n","value":"deleted"},{"at":1,"do":"hold","key":"n","known":[[0,2]]},{"at":0,"do":"show","key":"n","value":"deleted"},{"at":1,"do":"show","key":"n","value":"deleted"}
lawful
{"at":0,"do":"record","element":"x","key":"s","op":"add"},{"at":1,"do":"hold","key":"s","known":[[0,1]]},{"at":1,"do":"record","element":"x","key":"s","op":"remove"},{"at":0,"do":"record","element":"x","key":"s","op":"add"},{"at":0,"do":"hold","key":"s","known":[[0,2],[1,1]]},{"at":0,"do":"show","key":"s","value":"{\"x\"}"},{"at":1,"do":"show","key":"s","value":"{}"}
lawful"#;

// Member 0 takes over the state of member 1 by the last write, and loses its own second update. As its count tells it, as a count
// tells it that is right while the state was overwritten, and as it should have been.
const LOST_UPDATE: &str =
    r#"{"at":0,"by":5,"do":"record","key":"n","op":"increment"},{"at":1,"do":"hold","key":"n","known":[[0,1]]},{"at":2,"do":"hold","key":"n","known":[[0,1]]},{"at":1,"by":2,"do":"record","key":"n","op":"increment"},{"at":0,"by":3,"do":"record","key":"n","op":"increment"},{"at":0,"do":"hold","key":"n","known":[[0,1],[1,1]]},{"at":0,"do":"show","key":"n","value":"7"}
broken: line 6 rule 2
{"at":0,"by":5,"do":"record","key":"n","op":"increment"},{"at":1,"do":"hold","key":"n","known":[[0,1]]},{"at":2,"do":"hold","key":"n","known":[[0,1]]},{"at":1,"by":2,"do":"record","key":"n","op":"increment"},{"at":0,"by":3,"do":"record","key":"n","op":"increment"},{"at":0,"do":"hold","key":"n","known":[[0,2],[1,1]]},{"at":0,"do":"show","key":"n","value":"7"}
broken: line 7 rule 4
{"at":0,"by":5,"do":"record","key":"n","op":"increment"},{"at":1,"do":"hold","key":"n","known":[[0,1]]},{"at":2,"do":"hold","key":"n","known":[[0,1]]},{"at":1,"by":2,"do":"record","key":"n","op":"increment"},{"at":0,"by":3,"do":"record","key":"n","op":"increment"},{"at":0,"do":"hold","key":"n","known":[[0,2],[1,1]]},{"at":0,"do":"show","key":"n","value":"10"},{"at":1,"do":"show","key":"n","value":"7"},{"at":2,"do":"show","key":"n","value":"5"}
lawful"#;

// Member 1 takes one message twice and adds twice. It counts the message once, or twice; and the others hide it by taking its value.
const DOUBLED: &str =
    r#"{"at":0,"by":5,"do":"record","key":"n","op":"increment"},{"at":1,"do":"hold","key":"n","known":[[0,1]]},{"at":1,"do":"show","key":"n","value":"10"}
broken: line 3 rule 4
{"at":0,"by":5,"do":"record","key":"n","op":"increment"},{"at":1,"do":"hold","key":"n","known":[[0,2]]},{"at":1,"do":"show","key":"n","value":"10"}
broken: line 2 rule 2
{"at":0,"by":5,"do":"record","key":"n","op":"increment"},{"at":1,"do":"hold","key":"n","known":[[0,1]]},{"at":1,"by":1,"do":"record","key":"n","op":"increment"},{"at":2,"do":"hold","key":"n","known":[[0,1],[1,1]]},{"at":0,"do":"hold","key":"n","known":[[0,1],[1,1]]},{"at":2,"do":"show","key":"n","value":"11"},{"at":0,"do":"show","key":"n","value":"11"}
broken: line 6 rule 4"#;

#[test]
fn worked_traces(rt: HostRuntime) -> Result<(), Fail> {
    compare(&rt, rt.alloc(), TRACE, WORKED)?;
    compare(&rt, rt.alloc(), LINES, OTHER_RUNS)
}

#[test]
fn a_lost_update_is_found(rt: HostRuntime) -> Result<(), Fail> {
    compare(&rt, rt.alloc(), LINES, LOST_UPDATE)
}

#[test]
fn a_doubled_increment_is_found(rt: HostRuntime) -> Result<(), Fail> {
    compare(&rt, rt.alloc(), LINES, DOUBLED)
}
