//! Lines that break a rule, and lines beside them that break none.

use crate::rows::{LINES, compare};
use std::test::Fail;

const UNDECLARED: &str = r#"{"at":0,"by":1,"do":"record","key":"x","op":"increment"}
broken: line 1 rule 1
{"at":0,"by":1,"do":"record","key":"n","op":"increment"},{"at":0,"do":"hold","key":"x","known":[]}
broken: line 2 rule 1
{"at":0,"do":"show","key":"x","value":"0"}
broken: line 1 rule 1
{"at":0,"id":1,"do":"record","key":"x","op":"prune"}
broken: line 1 rule 1"#;

const OTHER_KINDS: &str = r#"{"at":0,"do":"record","element":"a","key":"n","op":"add"}
broken: line 1 rule 1
{"at":0,"by":1,"do":"record","key":"n","op":"decrement"}
broken: line 1 rule 1
{"at":0,"do":"record","element":"a","key":"g","op":"remove"}
broken: line 1 rule 1
{"at":0,"do":"record","key":"s","op":"enable"}
broken: line 1 rule 1
{"at":0,"do":"record","key":"r","now":0,"op":"assign","text":"a"},{"at":0,"by":1,"do":"record","key":"f","op":"increment"}
broken: line 2 rule 1
{"at":0,"by":1,"do":"record","key":"n","op":"increment"},{"at":0,"by":1,"do":"record","key":"p","op":"decrement"},{"at":0,"do":"record","element":"a","key":"g","op":"add"},{"at":0,"do":"record","element":"a","key":"s","op":"remove"},{"at":0,"do":"record","key":"f","op":"enable"},{"at":0,"do":"record","key":"r","now":0,"op":"assign","text":"a"}
lawful"#;

const DELETES: &str =
    r#"{"at":0,"do":"record","key":"n","op":"delete"},{"at":0,"by":1,"do":"record","key":"n","op":"increment"}
broken: line 2 rule 1
{"at":0,"do":"record","key":"n","op":"delete"},{"at":0,"do":"record","key":"n","op":"delete"}
broken: line 2 rule 1
{"at":0,"do":"record","key":"s","op":"delete"},{"at":1,"do":"hold","key":"s","known":[[0,1]]},{"at":1,"do":"record","element":"a","key":"s","op":"add"}
broken: line 3 rule 1
{"at":0,"do":"record","key":"s","op":"delete"},{"at":1,"do":"record","element":"a","key":"s","op":"add"},{"at":0,"do":"record","element":"a","key":"g","op":"add"},{"at":1,"do":"record","key":"s","op":"delete"},{"at":0,"do":"hold","key":"s","known":[[0,1],[1,2]]},{"at":0,"do":"show","key":"s","value":"deleted"}
lawful"#;

// A prune of the member itself, of one that never made a record, of one that the member holds no record of, and a second one.
const PRUNES: &str =
    r#"{"at":0,"by":1,"do":"record","key":"n","op":"increment"},{"at":0,"do":"record","id":0,"key":"n","op":"prune"}
broken: line 2 rule 1
{"at":0,"by":1,"do":"record","key":"n","op":"increment"},{"at":0,"do":"record","id":1,"key":"n","op":"prune"}
broken: line 2 rule 1
{"at":1,"by":1,"do":"record","key":"n","op":"increment"},{"at":0,"do":"record","id":1,"key":"n","op":"prune"}
broken: line 2 rule 1
{"at":1,"by":1,"do":"record","key":"n","op":"increment"},{"at":0,"do":"hold","key":"n","known":[[1,1]]},{"at":0,"do":"record","id":1,"key":"n","op":"prune"},{"at":0,"do":"record","id":1,"key":"n","op":"prune"}
broken: line 4 rule 1
{"at":1,"by":1,"do":"record","key":"n","op":"increment"},{"at":0,"do":"hold","key":"n","known":[[1,1]]},{"at":0,"do":"record","id":1,"key":"n","op":"prune"},{"at":0,"do":"show","key":"n","value":"1"},{"at":0,"by":1,"do":"record","key":"n","op":"increment"},{"at":0,"do":"show","key":"n","value":"2"}
lawful"#;

const FORGETTING: &str =
    r#"{"at":0,"by":1,"do":"record","key":"n","op":"increment"},{"at":0,"do":"hold","key":"n","known":[]}
broken: line 2 rule 2
{"at":0,"by":1,"do":"record","key":"n","op":"increment"},{"at":1,"do":"hold","key":"n","known":[[0,1]]},{"at":2,"by":1,"do":"record","key":"n","op":"increment"},{"at":1,"do":"hold","key":"n","known":[[2,1]]}
broken: line 4 rule 2
{"at":254,"by":1,"do":"record","key":"n","op":"increment"},{"at":254,"by":1,"do":"record","key":"n","op":"increment"},{"at":254,"do":"hold","key":"n","known":[[254,1]]}
broken: line 3 rule 2
{"at":0,"by":1,"do":"record","key":"n","op":"increment"},{"at":0,"do":"hold","key":"p","known":[]},{"at":0,"do":"hold","key":"n","known":[[0,1]]}
lawful"#;

const NEVER_MADE: &str = r#"{"at":0,"do":"hold","key":"n","known":[[0,1]]}
broken: line 1 rule 2
{"at":0,"by":1,"do":"record","key":"n","op":"increment"},{"at":1,"do":"hold","key":"n","known":[[0,2]]}
broken: line 2 rule 2
{"at":1,"do":"hold","key":"n","known":[[0,1]]},{"at":0,"by":1,"do":"record","key":"n","op":"increment"}
broken: line 1 rule 2
{"at":0,"by":1,"do":"record","key":"n","op":"increment"},{"at":1,"do":"hold","key":"p","known":[[0,1]]}
broken: line 2 rule 2
{"at":0,"by":1,"do":"record","key":"n","op":"increment"},{"at":1,"do":"hold","key":"n","known":[[0,1],[254,4611686018427387904]]}
broken: line 2 rule 2"#;

// The record of 1 has that of 0 in its past; in the second, a record of 2 has one of 1 in its past, and that one of 0;
// in the last the vector counts the first record of 1, whose past is empty.
const NOT_CLOSED: &str =
    r#"{"at":0,"by":1,"do":"record","key":"n","op":"increment"},{"at":1,"do":"hold","key":"n","known":[[0,1]]},{"at":1,"by":1,"do":"record","key":"n","op":"increment"},{"at":2,"do":"hold","key":"n","known":[[1,1]]}
broken: line 4 rule 2
{"at":0,"by":1,"do":"record","key":"n","op":"increment"},{"at":1,"do":"hold","key":"n","known":[[0,1]]},{"at":1,"by":1,"do":"record","key":"n","op":"increment"},{"at":2,"do":"hold","key":"n","known":[[0,1],[1,1]]},{"at":2,"by":1,"do":"record","key":"n","op":"increment"},{"at":3,"do":"hold","key":"n","known":[[1,1],[2,1]]}
broken: line 6 rule 2
{"at":0,"by":1,"do":"record","key":"n","op":"increment"},{"at":0,"by":1,"do":"record","key":"n","op":"increment"},{"at":1,"do":"hold","key":"n","known":[[0,2]]},{"at":1,"by":1,"do":"record","key":"n","op":"increment"},{"at":2,"do":"hold","key":"n","known":[[0,1],[1,1]]}
broken: line 5 rule 2
{"at":1,"by":1,"do":"record","key":"n","op":"increment"},{"at":0,"by":1,"do":"record","key":"n","op":"increment"},{"at":1,"do":"hold","key":"n","known":[[0,1],[1,1]]},{"at":1,"by":1,"do":"record","key":"n","op":"increment"},{"at":2,"do":"hold","key":"n","known":[[1,1]]},{"at":2,"do":"hold","key":"n","known":[[0,1],[1,2]]}
lawful"#;

// The prune saw one record of 3. Another member holds two and then the prune; who pruned takes the second; 3 itself makes one after it.
const MORE_THAN_SEEN: &str =
    r#"{"at":3,"by":1,"do":"record","key":"n","op":"increment"},{"at":0,"do":"hold","key":"n","known":[[3,1]]},{"at":0,"do":"record","id":3,"key":"n","op":"prune"},{"at":3,"by":1,"do":"record","key":"n","op":"increment"},{"at":1,"do":"hold","key":"n","known":[[3,2]]},{"at":1,"do":"hold","key":"n","known":[[0,1],[3,2]]}
broken: line 6 rule 3
{"at":3,"by":1,"do":"record","key":"n","op":"increment"},{"at":0,"do":"hold","key":"n","known":[[3,1]]},{"at":0,"do":"record","id":3,"key":"n","op":"prune"},{"at":3,"by":1,"do":"record","key":"n","op":"increment"},{"at":0,"do":"hold","key":"n","known":[[0,1],[3,2]]}
broken: line 5 rule 3
{"at":3,"by":1,"do":"record","key":"n","op":"increment"},{"at":0,"do":"hold","key":"n","known":[[3,1]]},{"at":0,"do":"record","id":3,"key":"n","op":"prune"},{"at":3,"do":"hold","key":"n","known":[[0,1],[3,1]]},{"at":3,"by":1,"do":"record","key":"n","op":"increment"}
broken: line 5 rule 3
{"at":3,"by":1,"do":"record","key":"n","op":"increment"},{"at":0,"do":"hold","key":"n","known":[[3,1]]},{"at":0,"do":"record","id":3,"key":"n","op":"prune"},{"at":1,"do":"hold","key":"n","known":[[0,1],[3,1]]},{"at":1,"do":"show","key":"n","value":"1"}
lawful"#;

const TWO_PRUNES: &str =
    r#"{"at":3,"by":1,"do":"record","key":"n","op":"increment"},{"at":0,"do":"hold","key":"n","known":[[3,1]]},{"at":1,"do":"hold","key":"n","known":[[3,1]]},{"at":0,"do":"record","id":3,"key":"n","op":"prune"},{"at":1,"do":"record","id":3,"key":"n","op":"prune"},{"at":2,"do":"hold","key":"n","known":[[0,1],[1,1],[3,1]]}
broken: line 6 rule 3
{"at":3,"by":1,"do":"record","key":"n","op":"increment"},{"at":0,"do":"hold","key":"n","known":[[3,1]]},{"at":1,"do":"hold","key":"n","known":[[3,1]]},{"at":0,"do":"record","id":3,"key":"n","op":"prune"},{"at":1,"do":"record","id":3,"key":"n","op":"prune"},{"at":0,"do":"hold","key":"n","known":[[0,1],[1,1],[3,1]]}
broken: line 6 rule 3
{"at":3,"by":1,"do":"record","key":"n","op":"increment"},{"at":4,"by":1,"do":"record","key":"n","op":"increment"},{"at":0,"do":"hold","key":"n","known":[[3,1]]},{"at":1,"do":"hold","key":"n","known":[[4,1]]},{"at":0,"do":"record","id":3,"key":"n","op":"prune"},{"at":1,"do":"record","id":4,"key":"n","op":"prune"},{"at":2,"do":"hold","key":"n","known":[[0,1],[1,1],[3,1],[4,1]]},{"at":2,"do":"show","key":"n","value":"2"}
lawful"#;

// What breaks two rules is told by the least, and of two lines that break one the first is told.
const FIRST_AND_LEAST: &str =
    r#"{"at":3,"by":1,"do":"record","key":"n","op":"increment"},{"at":0,"do":"hold","key":"n","known":[[3,1]]},{"at":0,"do":"record","id":3,"key":"n","op":"prune"},{"at":3,"by":1,"do":"record","key":"n","op":"increment"},{"at":0,"do":"hold","key":"n","known":[[3,2]]}
broken: line 5 rule 2
{"at":3,"by":1,"do":"record","key":"n","op":"increment"},{"at":0,"do":"hold","key":"n","known":[[3,1]]},{"at":0,"do":"record","id":3,"key":"n","op":"prune"},{"at":3,"do":"hold","key":"n","known":[[0,1],[3,1]]},{"at":3,"by":1,"do":"record","key":"n","op":"decrement"}
broken: line 5 rule 1
{"at":0,"do":"hold","key":"n","known":[[0,1]]},{"at":0,"by":1,"do":"record","key":"x","op":"increment"}
broken: line 1 rule 2
{"at":0,"do":"show","key":"n","value":"1"},{"at":0,"do":"hold","key":"n","known":[[0,1]]}
broken: line 1 rule 4"#;

#[test]
fn a_record_is_of_its_key(rt: HostRuntime) -> Result<(), Fail> {
    compare(&rt, rt.alloc(), LINES, UNDECLARED)?;
    compare(&rt, rt.alloc(), LINES, OTHER_KINDS)?;
    compare(&rt, rt.alloc(), LINES, DELETES)
}

#[test]
fn a_prune_has_its_record(rt: HostRuntime) -> Result<(), Fail> {
    compare(&rt, rt.alloc(), LINES, PRUNES)
}

#[test]
fn what_is_held_is_a_cut(rt: HostRuntime) -> Result<(), Fail> {
    compare(&rt, rt.alloc(), LINES, FORGETTING)?;
    compare(&rt, rt.alloc(), LINES, NEVER_MADE)?;
    compare(&rt, rt.alloc(), LINES, NOT_CLOSED)
}

#[test]
fn what_is_held_is_exactly_pruned(rt: HostRuntime) -> Result<(), Fail> {
    compare(&rt, rt.alloc(), LINES, MORE_THAN_SEEN)?;
    compare(&rt, rt.alloc(), LINES, TWO_PRUNES)
}

#[test]
fn the_first_line_and_its_least_rule(rt: HostRuntime) -> Result<(), Fail> {
    compare(&rt, rt.alloc(), LINES, FIRST_AND_LEAST)
}
