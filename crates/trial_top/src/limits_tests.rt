//! Scripts that are refused at each turn, and one that goes up to the limits of a set, of a level and of identities.

use crate::checking::{compare, compare_built};
use std::test::Fail;
use trial_rows::{MANY, Section};

const REFUSALS: &str =
    r#"{"members":2,"keys":[{"key":"d","kind":"gcounter","durable":true},{"key":"n","kind":"gcounter"}],"steps":[
    {"do":"update","at":7,"key":"n","op":"increment","by":1},
    {"do":"update","at":0,"key":"zz","op":"increment","by":1},
    {"do":"update","at":0,"key":"n","op":"add","element":"x"},
    {"do":"get","at":0,"key":"n","level":{"to":3}},
    {"do":"tick","at":1},
    {"do":"deliver","from":0,"to":1},
    {"do":"gossip","at":0,"to":0},
    {"do":"install","at":0,"view":0},
    {"do":"install","at":0,"view":3},
    {"do":"join","place":1},
    {"do":"remove","id":1},
    {"do":"remove","id":0},
    {"do":"join","place":1},
    {"do":"timeout","at":0,"op":0},
    {"do":"get","at":0,"key":"n"}]}"#;

const REFUSALS_REPORT: &str = r#"1 update 7 n gone
2 update 0 zz unknown key
3 update 0 n wrong kind
4 get 0 n too few
5 tick 1 not leader 0
6 deliver 0>1 0 no such message
7 gossip 0 0 not a peer
8 install 0 view 0 old view
9 install 0 view 3 no such view
10 join 1 place taken
11 remove 1 view 1
12 remove 0 last member
13 join 1 id 2 view 2
14 timeout 0 0 no such op
15 get 0 n not found
final view 2
member 0 place 0 view 0
d - known - marks -
n - known - marks -
member 2 place 1 view 2
d - known - marks -
n - known - marks -
"#;

#[test]
fn refuses_what_cannot_be_done(rt: HostRuntime) -> Result<(), Fail> {
    let alloc = rt.alloc();
    let none: &[u64] = &[];
    compare(&rt, alloc, 0, &[(REFUSALS, none, REFUSALS_REPORT)])
}

/// Adds up to a full set and beyond, an add that needs a member too many, and restarts until no identity is left.
const LIMITS: &[Section] = &[
    (
        1,
        r#"{"members":3,"keys":[{"key":"s","kind":"gset"}],"steps":["#,
        &[],
    ),
    (
        257,
        r#"{"do":"update","at":0,"key":"s","op":"add","element":"e###"},"#,
        &[(0, 1, 100, 10), (0, 1, 10, 10), (0, 1, 1, 10)],
    ),
    (
        1,
        r#"{"do":"update","at":0,"key":"s","op":"add","element":"e000"},{"do":"update","at":0,"key":"s","op":"add","element":"e000","level":{"to":4}}"#,
        &[],
    ),
    (253, r#",{"do":"restart","id":#}"#, &[(2, 1, 1, MANY)]),
    (1, r#"]}"#, &[]),
];

const LIMITS_REPORT: &[Section] = &[
    (
        256,
        r#"# update 0 s done
"#,
        &[(1, 1, 1, MANY)],
    ),
    (
        1,
        r#"257 update 0 s set full
258 update 0 s done
259 update 0 s too few
"#,
        &[],
    ),
    (
        252,
        r#"# restart # id # view #
"#,
        &[
            (260, 1, 1, MANY),
            (2, 1, 1, MANY),
            (3, 1, 1, MANY),
            (1, 1, 1, MANY),
        ],
    ),
    (
        1,
        r#"512 restart 254 too many identities
final view 252
member 0 place 0 view 0
s {"#,
        &[],
    ),
    (
        255,
        r#""e###","#,
        &[(0, 1, 100, 10), (0, 1, 10, 10), (0, 1, 1, 10)],
    ),
    (
        1,
        r#""e255"} known 0:257 marks -
member 1 place 1 view 0
s - known - marks -
member 254 place 2 view 252
s - known - marks -
"#,
        &[],
    ),
];

#[test]
fn stops_at_the_limits(rt: HostRuntime) -> Result<(), Fail> {
    compare_built(&rt, rt.alloc(), LIMITS, LIMITS_REPORT)
}
