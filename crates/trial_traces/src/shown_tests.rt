//! What is shown: the text of what the held records mean.

use crate::rows::{LINES, compare};
use std::test::Fail;

const COUNTERS: &str = r#"{"at":0,"do":"show","key":"n","value":"0"}
broken: line 1 rule 4
{"at":0,"by":5,"do":"record","key":"n","op":"increment"},{"at":0,"do":"show","key":"n","value":"6"}
broken: line 2 rule 4
{"at":0,"by":5,"do":"record","key":"n","op":"increment"},{"at":1,"do":"show","key":"n","value":"5"}
broken: line 2 rule 4
{"at":0,"by":5,"do":"record","key":"n","op":"increment"},{"at":0,"do":"show","key":"n","value":"05"}
broken: line 2 rule 4
{"at":0,"by":5,"do":"record","key":"p","op":"increment"},{"at":0,"by":7,"do":"record","key":"p","op":"decrement"},{"at":0,"do":"show","key":"p","value":"2"}
broken: line 3 rule 4
{"at":0,"by":5,"do":"record","key":"p","op":"increment"},{"at":0,"by":7,"do":"record","key":"p","op":"decrement"},{"at":0,"do":"show","key":"p","value":"-2"}
lawful
{"at":0,"by":9223372036854775807,"do":"record","key":"n","op":"increment"},{"at":0,"by":9223372036854775807,"do":"record","key":"n","op":"increment"},{"at":0,"by":9223372036854775807,"do":"record","key":"n","op":"increment"},{"at":0,"do":"show","key":"n","value":"27670116110564327421"}
lawful"#;

// A replica would show something else: of a counter whose share of 3 was taken over twice, of a set in which a remove takes what
// it never saw, of a set that keeps what its remove saw, and of a set that is shown in the order of adding.
const REPLICAS: &str =
    r#"{"at":3,"by":5,"do":"record","key":"n","op":"increment"},{"at":0,"do":"hold","key":"n","known":[[3,1]]},{"at":0,"do":"record","id":3,"key":"n","op":"prune"},{"at":0,"do":"show","key":"n","value":"10"}
broken: line 4 rule 4
{"at":0,"do":"record","element":"x","key":"s","op":"add"},{"at":1,"do":"hold","key":"s","known":[[0,1]]},{"at":1,"do":"record","element":"x","key":"s","op":"remove"},{"at":0,"do":"record","element":"x","key":"s","op":"add"},{"at":0,"do":"hold","key":"s","known":[[0,2],[1,1]]},{"at":0,"do":"show","key":"s","value":"{}"}
broken: line 6 rule 4
{"at":0,"do":"record","element":"x","key":"s","op":"add"},{"at":1,"do":"hold","key":"s","known":[[0,1]]},{"at":1,"do":"record","element":"x","key":"s","op":"remove"},{"at":0,"do":"hold","key":"s","known":[[0,1],[1,1]]},{"at":0,"do":"show","key":"s","value":"{\"x\"}"}
broken: line 5 rule 4
{"at":0,"do":"record","element":"y","key":"s","op":"add"},{"at":0,"do":"record","element":"x","key":"s","op":"add"},{"at":0,"do":"show","key":"s","value":"{\"y\",\"x\"}"}
broken: line 3 rule 4
{"at":0,"do":"record","element":"x","key":"s","op":"add"},{"at":1,"do":"hold","key":"s","known":[[0,1]]},{"at":1,"do":"record","element":"x","key":"s","op":"remove"},{"at":0,"do":"record","element":"x","key":"s","op":"add"},{"at":0,"do":"hold","key":"s","known":[[0,2],[1,1]]},{"at":0,"do":"show","key":"s","value":"{\"x\"}"},{"at":1,"do":"show","key":"s","value":"{}"}
lawful"#;

// The greatest time wins, and of two writes of one time that of the least identity.
const OTHER_KINDS: &str =
    r#"{"at":0,"do":"record","key":"f","op":"enable"},{"at":0,"do":"show","key":"f","value":"false"}
broken: line 2 rule 4
{"at":0,"do":"record","key":"r","now":7,"op":"assign","text":"a"},{"at":1,"do":"record","key":"r","now":7,"op":"assign","text":"b"},{"at":0,"do":"hold","key":"r","known":[[0,1],[1,1]]},{"at":0,"do":"show","key":"r","value":"\"b\""}
broken: line 4 rule 4
{"at":0,"do":"record","key":"r","now":7,"op":"assign","text":"a"},{"at":0,"do":"show","key":"r","value":"a"}
broken: line 2 rule 4
{"at":0,"do":"record","element":"b","key":"g","op":"add"},{"at":0,"do":"record","element":"a","key":"g","op":"add"},{"at":0,"do":"show","key":"g","value":"{\"b\"}"}
broken: line 3 rule 4
{"at":0,"do":"record","key":"f","op":"delete"},{"at":0,"do":"show","key":"f","value":"true"}
broken: line 2 rule 4
{"at":0,"do":"record","key":"f","op":"enable"},{"at":0,"do":"show","key":"f","value":"true"},{"at":0,"do":"record","element":"b","key":"g","op":"add"},{"at":0,"do":"record","element":"a","key":"g","op":"add"},{"at":0,"do":"show","key":"g","value":"{\"a\",\"b\"}"}
lawful
{"at":0,"do":"record","key":"r","now":7,"op":"assign","text":"a"},{"at":1,"do":"record","key":"r","now":8,"op":"assign","text":"b"},{"at":0,"do":"hold","key":"r","known":[[0,1],[1,1]]},{"at":0,"do":"show","key":"r","value":"\"b\""},{"at":0,"do":"record","key":"r","now":0,"op":"assign","text":"c"},{"at":0,"do":"show","key":"r","value":"\"c\""}
lawful
{"at":0,"do":"record","key":"r","now":7,"op":"assign","text":"a"},{"at":1,"do":"record","key":"r","now":7,"op":"assign","text":"b"},{"at":0,"do":"hold","key":"r","known":[[0,1],[1,1]]},{"at":0,"do":"show","key":"r","value":"\"a\""},{"at":1,"do":"show","key":"r","value":"\"b\""}
lawful"#;

#[test]
fn a_counter_shows_its_sum(rt: HostRuntime) -> Result<(), Fail> {
    compare(&rt, rt.alloc(), LINES, COUNTERS)
}

#[test]
fn what_a_wrong_replica_shows(rt: HostRuntime) -> Result<(), Fail> {
    compare(&rt, rt.alloc(), LINES, REPLICAS)
}

#[test]
fn the_other_kinds_show_their_meaning(rt: HostRuntime) -> Result<(), Fail> {
    compare(&rt, rt.alloc(), LINES, OTHER_KINDS)
}
