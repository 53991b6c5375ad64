//! The largest script, and a full set. Scripts and reports are computed by the rules of scripts and reports alone.

use crate::checking::compare_built;
use std::test::Fail;
use trial_rows::{MANY, Section};

/// Eight members take turns at 4,087 updates, and after each turn comes the next of 16 keys; with a flush of each and a round these are 4,096 steps. Each update adds one more than the one before it.
const LARGEST: &[Section] = &[
    (
        1,
        r#"{"members":8,"keys":[{"key":"k10","kind":"gcounter"},{"key":"k11","kind":"gcounter"},{"key":"k12","kind":"gcounter"},{"key":"k13","kind":"gcounter"},{"key":"k14","kind":"gcounter"},{"key":"k15","kind":"gcounter"},{"key":"k16","kind":"gcounter"},{"key":"k17","kind":"gcounter"},{"key":"k18","kind":"gcounter"},{"key":"k19","kind":"gcounter"},{"key":"k20","kind":"gcounter"},{"key":"k21","kind":"gcounter"},{"key":"k22","kind":"gcounter"},{"key":"k23","kind":"gcounter"},{"key":"k24","kind":"gcounter"},{"key":"k25","kind":"gcounter"}],"steps":["#,
        &[],
    ),
    (
        4087,
        r#"{"do":"update","at":#,"key":"k#","op":"increment","by":#},"#,
        &[(0, 1, 1, 8), (10, 1, 8, 16), (1, 1, 1, MANY)],
    ),
    (8, r#"{"do":"flush","at":#},"#, &[(0, 1, 1, MANY)]),
    (1, r#"{"do":"round"}]}"#, &[]),
];

/// At the end all members know all.
const LARGEST_REPORT: &[Section] = &[
    (
        4087,
        r#"# update # k# done
"#,
        &[(1, 1, 1, MANY), (0, 1, 1, 8), (10, 1, 8, 16)],
    ),
    (
        1,
        r#"4088 flush 0 done sent 1:deltas/16/0 2:deltas/16/0 3:deltas/16/0 4:deltas/16/0 5:deltas/16/0 6:deltas/16/0 7:deltas/16/0
4089 flush 1 done sent 0:deltas/16/0 2:deltas/16/0 3:deltas/16/0 4:deltas/16/0 5:deltas/16/0 6:deltas/16/0 7:deltas/16/0
4090 flush 2 done sent 0:deltas/16/0 1:deltas/16/0 3:deltas/16/0 4:deltas/16/0 5:deltas/16/0 6:deltas/16/0 7:deltas/16/0
4091 flush 3 done sent 0:deltas/16/0 1:deltas/16/0 2:deltas/16/0 4:deltas/16/0 5:deltas/16/0 6:deltas/16/0 7:deltas/16/0
4092 flush 4 done sent 0:deltas/16/0 1:deltas/16/0 2:deltas/16/0 3:deltas/16/0 5:deltas/16/0 6:deltas/16/0 7:deltas/16/0
4093 flush 5 done sent 0:deltas/16/0 1:deltas/16/0 2:deltas/16/0 3:deltas/16/0 4:deltas/16/0 6:deltas/16/0 7:deltas/16/0
4094 flush 6 done sent 0:deltas/16/0 1:deltas/16/0 2:deltas/16/0 3:deltas/16/0 4:deltas/16/0 5:deltas/16/0 7:deltas/16/0
4095 flush 7 done sent 0:deltas/16/0 1:deltas/16/0 2:deltas/16/0 3:deltas/16/0 4:deltas/16/0 5:deltas/16/0 6:deltas/16/0
"#,
        &[],
    ),
    (
        1,
        r#"4096 deliver 0>1 0 deltas/16/0 taken
4096 deliver 0>2 0 deltas/16/0 taken
4096 deliver 0>3 0 deltas/16/0 taken
4096 deliver 0>4 0 deltas/16/0 taken
4096 deliver 0>5 0 deltas/16/0 taken
4096 deliver 0>6 0 deltas/16/0 taken
4096 deliver 0>7 0 deltas/16/0 taken
4096 deliver 1>0 0 deltas/16/0 taken
4096 deliver 1>2 0 deltas/16/0 taken
4096 deliver 1>3 0 deltas/16/0 taken
4096 deliver 1>4 0 deltas/16/0 taken
4096 deliver 1>5 0 deltas/16/0 taken
4096 deliver 1>6 0 deltas/16/0 taken
4096 deliver 1>7 0 deltas/16/0 taken
4096 deliver 2>0 0 deltas/16/0 taken
4096 deliver 2>1 0 deltas/16/0 taken
4096 deliver 2>3 0 deltas/16/0 taken
4096 deliver 2>4 0 deltas/16/0 taken
4096 deliver 2>5 0 deltas/16/0 taken
4096 deliver 2>6 0 deltas/16/0 taken
4096 deliver 2>7 0 deltas/16/0 taken
4096 deliver 3>0 0 deltas/16/0 taken
4096 deliver 3>1 0 deltas/16/0 taken
4096 deliver 3>2 0 deltas/16/0 taken
4096 deliver 3>4 0 deltas/16/0 taken
4096 deliver 3>5 0 deltas/16/0 taken
4096 deliver 3>6 0 deltas/16/0 taken
4096 deliver 3>7 0 deltas/16/0 taken
4096 deliver 4>0 0 deltas/16/0 taken
4096 deliver 4>1 0 deltas/16/0 taken
4096 deliver 4>2 0 deltas/16/0 taken
4096 deliver 4>3 0 deltas/16/0 taken
4096 deliver 4>5 0 deltas/16/0 taken
4096 deliver 4>6 0 deltas/16/0 taken
4096 deliver 4>7 0 deltas/16/0 taken
4096 deliver 5>0 0 deltas/16/0 taken
4096 deliver 5>1 0 deltas/16/0 taken
4096 deliver 5>2 0 deltas/16/0 taken
4096 deliver 5>3 0 deltas/16/0 taken
4096 deliver 5>4 0 deltas/16/0 taken
4096 deliver 5>6 0 deltas/16/0 taken
4096 deliver 5>7 0 deltas/16/0 taken
4096 deliver 6>0 0 deltas/16/0 taken
4096 deliver 6>1 0 deltas/16/0 taken
4096 deliver 6>2 0 deltas/16/0 taken
4096 deliver 6>3 0 deltas/16/0 taken
4096 deliver 6>4 0 deltas/16/0 taken
4096 deliver 6>5 0 deltas/16/0 taken
4096 deliver 6>7 0 deltas/16/0 taken
4096 deliver 7>0 0 deltas/16/0 taken
4096 deliver 7>1 0 deltas/16/0 taken
4096 deliver 7>2 0 deltas/16/0 taken
4096 deliver 7>3 0 deltas/16/0 taken
4096 deliver 7>4 0 deltas/16/0 taken
4096 deliver 7>5 0 deltas/16/0 taken
4096 deliver 7>6 0 deltas/16/0 taken
final view 0
"#,
        &[],
    ),
    (
        8,
        r#"member # place # view 0
k10 509056 known 0:32 1:32 2:32 3:32 4:32 5:32 6:32 7:32 marks -
k11 511104 known 0:32 1:32 2:32 3:32 4:32 5:32 6:32 7:32 marks -
k12 513152 known 0:32 1:32 2:32 3:32 4:32 5:32 6:32 7:32 marks -
k13 515200 known 0:32 1:32 2:32 3:32 4:32 5:32 6:32 7:32 marks -
k14 517248 known 0:32 1:32 2:32 3:32 4:32 5:32 6:32 7:32 marks -
k15 519296 known 0:32 1:32 2:32 3:32 4:32 5:32 6:32 7:32 marks -
k16 521344 known 0:32 1:32 2:32 3:32 4:32 5:32 6:32 7:32 marks -
k17 523392 known 0:32 1:32 2:32 3:32 4:32 5:32 6:32 7:32 marks -
k18 525440 known 0:32 1:32 2:32 3:32 4:32 5:32 6:32 7:32 marks -
k19 527488 known 0:32 1:32 2:32 3:32 4:32 5:32 6:32 7:32 marks -
k20 529536 known 0:32 1:32 2:32 3:32 4:32 5:32 6:32 7:32 marks -
k21 531584 known 0:32 1:32 2:32 3:32 4:32 5:32 6:32 7:32 marks -
k22 533632 known 0:32 1:32 2:32 3:32 4:32 5:32 6:32 7:32 marks -
k23 535680 known 0:32 1:32 2:32 3:32 4:32 5:32 6:32 7:32 marks -
k24 533640 known 0:32 1:32 2:32 3:32 4:32 5:32 6:32 7:31 marks -
k25 507036 known 0:31 1:31 2:31 3:31 4:31 5:31 6:31 7:31 marks -
"#,
        &[(0, 1, 1, MANY), (0, 1, 1, MANY)],
    ),
];

/// 257 adds to one set, each of another element, and of the first one again.
const ADDS: &[Section] = &[
    (
        1,
        r#"{"members":1,"keys":[{"key":"s","kind":"orset"}],"steps":["#,
        &[],
    ),
    (
        257,
        r####"{"do":"update","at":0,"key":"s","op":"add","element":"###"},"####,
        &[(0, 1, 100, 10), (0, 1, 10, 10), (0, 1, 1, 10)],
    ),
    (
        1,
        r#"{"do":"update","at":0,"key":"s","op":"add","element":"000"}]}"#,
        &[],
    ),
];

/// The last of the elements is refused, and the first may be added again.
const ADDS_REPORT: &[Section] = &[
    (
        256,
        r#"# update 0 s done
"#,
        &[(1, 1, 1, MANY)],
    ),
    (
        1,
        r#"257 update 0 s set full
258 update 0 s done
final view 0
member 0 place 0 view 0
s {"#,
        &[],
    ),
    (
        255,
        r####""###","####,
        &[(0, 1, 100, 10), (0, 1, 10, 10), (0, 1, 1, 10)],
    ),
    (
        1,
        r#""255"} known 0:257 marks -
"#,
        &[],
    ),
];

#[test]
fn runs_the_most_steps_at_the_most_members_and_keys(rt: HostRuntime) -> Result<(), Fail> {
    compare_built(&rt, rt.alloc(), LARGEST, LARGEST_REPORT)
}

#[test]
fn takes_no_new_element_into_a_set_of_256(rt: HostRuntime) -> Result<(), Fail> {
    compare_built(&rt, rt.alloc(), ADDS, ADDS_REPORT)
}
