//! Updates and gets with levels, and timeouts.

use crate::checking::{compare, compare_built};
use std::test::Fail;
use trial_rows::{MANY, Row, Section};

const A_MAJORITY_WRITE_AND_READ: &str =
    r#"{"members":5,"keys":[{"key":"n","kind":"gcounter"}],"steps":[
    {"do":"update","at":0,"key":"n","op":"increment","by":6,"level":{"majority":0}},
    {"do":"deliver","from":0,"to":1},
    {"do":"deliver","from":1,"to":0},
    {"do":"deliver","from":1,"to":0,"index":0},
    {"do":"deliver","from":0,"to":2},
    {"do":"deliver","from":2,"to":0},
    {"do":"get","at":4,"key":"n","level":"majority"},
    {"do":"deliver","from":4,"to":1},
    {"do":"deliver","from":4,"to":3},
    {"do":"deliver","from":1,"to":4},
    {"do":"get","at":3,"key":"n"},
    {"do":"deliver","from":3,"to":4}]}"#;

const A_MAJORITY_WRITE_AND_READ_REPORT: &str =
    r#"1 update 0 n pending 0 sent 1:write 2:write 3:write 4:write
2 deliver 0>1 0 write taken sent 0:write-ack
3 deliver 1>0 0 write-ack taken
4 deliver 1>0 0 write-ack taken
5 deliver 0>2 0 write taken sent 0:write-ack
6 deliver 2>0 0 write-ack taken finished 0 done
7 get 4 n pending 0 sent 0:read 1:read 2:read 3:read
8 deliver 4>1 0 read taken sent 4:read-answer
9 deliver 4>3 0 read taken sent 4:read-answer
10 deliver 1>4 0 read-answer taken
11 get 3 n not found
12 deliver 3>4 0 read-answer already finished 0 value 6
final view 0
member 0 place 0 view 0
n 6 known 0:1 marks -
member 1 place 1 view 0
n 6 known 0:1 marks -
member 2 place 2 view 0
n 6 known 0:1 marks -
member 3 place 3 view 0
n - known - marks -
member 4 place 4 view 0
n 6 known 0:1 marks -
"#;

const A_TIMEOUT: &str = r#"{"members":3,"keys":[{"key":"n","kind":"gcounter"}],"steps":[
    {"do":"update","at":0,"key":"n","op":"increment","by":2,"level":"majority"},
    {"do":"lose","from":0,"to":1},
    {"do":"lose","from":0,"to":2},
    {"do":"timeout","at":0,"op":0},
    {"do":"get","at":0,"key":"n"},
    {"do":"timeout","at":0,"op":0},
    {"do":"timeout","at":7,"op":0}]}"#;

const A_TIMEOUT_REPORT: &str = r#"1 update 0 n pending 0 sent 1:write 2:write
2 lose 0>1 0 lost
3 lose 0>2 0 lost
4 timeout 0 0 timed out
5 get 0 n value 2
6 timeout 0 0 no such op
7 timeout 7 0 gone
final view 0
member 0 place 0 view 0
n 2 known 0:1 marks -
member 1 place 1 view 0
n - known - marks -
member 2 place 2 view 0
n - known - marks -
"#;

const LEVELS: &str = r#"{"members":2,"keys":[{"key":"n","kind":"gcounter"}],"steps":[
    {"do":"get","at":0,"key":"n","level":{"to":3}},
    {"do":"update","at":0,"key":"n","op":"increment","by":1,"level":{"to":3}},
    {"do":"get","at":0,"key":"n"},
    {"do":"get","at":0,"key":"n","level":{"to":1}},
    {"do":"update","at":0,"key":"n","op":"increment","by":1,"level":"local"},
    {"do":"get","at":1,"key":"n","level":"all"},
    {"do":"round"},
    {"do":"round"},
    {"do":"timeout","at":1,"op":0},
    {"do":"update","at":0,"key":"n","op":"increment","by":1,"level":{"majority":64}},
    {"do":"timeout","at":0,"op":1},
    {"do":"timeout","at":0,"op":0},
    {"do":"round"},
    {"do":"round"}]}"#;

const LEVELS_REPORT: &str = r#"1 get 0 n too few
2 update 0 n too few
3 get 0 n not found
4 get 0 n not found
5 update 0 n done
6 get 1 n pending 0 sent 0:read
7 deliver 1>0 0 read taken sent 1:read-answer
8 deliver 0>1 0 read-answer taken finished 0 value 1
9 timeout 1 0 no such op
10 update 0 n pending 0 sent 1:write
11 timeout 0 1 no such op
12 timeout 0 0 timed out
13 deliver 0>1 1 write taken sent 0:write-ack
14 deliver 1>0 1 write-ack taken
final view 0
member 0 place 0 view 0
n 2 known 0:2 marks -
member 1 place 1 view 0
n 2 known 0:2 marks -
"#;

const A_FAILING_STORE: &str =
    r#"{"members":2,"keys":[{"key":"d","kind":"gcounter","durable":true}],"steps":[
    {"do":"update","at":1,"key":"d","op":"increment","by":1,"level":"majority"},
    {"do":"update","at":0,"key":"d","op":"increment","by":2,"level":"majority"},
    {"do":"deliver","from":0,"to":1},
    {"do":"deliver","from":1,"to":0},
    {"do":"deliver","from":0,"to":1,"index":0},
    {"do":"deliver","from":1,"to":0}]}"#;

const A_FAILING_STORE_REPORT: &str = r#"1 update 1 d store failed
2 update 0 d pending 0 sent 1:write
3 deliver 0>1 0 write store failed sent 0:write-nack
4 deliver 1>0 0 write-nack taken
5 deliver 0>1 0 write already sent 0:write-ack
6 deliver 1>0 1 write-ack taken finished 0 done
final view 0
member 0 place 0 view 0
d 2 known 0:1 marks -
member 1 place 1 view 0
d 3 known 0:1 1:1 marks -
"#;

/// The scripts, with their reports.
const ROWS: &[Row] = &[
    (
        A_MAJORITY_WRITE_AND_READ,
        &[],
        A_MAJORITY_WRITE_AND_READ_REPORT,
    ),
    (A_TIMEOUT, &[], A_TIMEOUT_REPORT),
    (LEVELS, &[], LEVELS_REPORT),
    (A_FAILING_STORE, &[1, 2], A_FAILING_STORE_REPORT),
];

#[test]
fn operations_wait_for_as_many_members_as_their_level_needs(rt: HostRuntime) -> Result<(), Fail> {
    compare(&rt, rt.alloc(), 1, ROWS)
}

/// Eight members take turns, each with a majority write and then a majority read: 4,000 operations, a round that brings them to all, and one that brings the answers back.
const OPERATIONS: &[Section] = &[
    (
        1,
        r#"{"members":8,"keys":[{"key":"n","kind":"gcounter"}],"steps":["#,
        &[],
    ),
    (
        2000,
        r#"{"do":"update","at":#,"key":"n","op":"increment","by":1,"level":"majority"},{"do":"get","at":#,"key":"n","level":"majority"},"#,
        &[(0, 1, 1, 8), (0, 1, 1, 8)],
    ),
    (1, r#"{"do":"round"},{"do":"round"}]}"#, &[]),
];

/// Of the second round the fourth answer ends an operation, and at the end all members know all.
const OPERATIONS_REPORT: &[Section] = &[
    (
        250,
        r#"# update 0 n pending # sent 1:write 2:write 3:write 4:write 5:write 6:write 7:write
# get 0 n pending # sent 1:read 2:read 3:read 4:read 5:read 6:read 7:read
# update 1 n pending # sent 0:write 2:write 3:write 4:write 5:write 6:write 7:write
# get 1 n pending # sent 0:read 2:read 3:read 4:read 5:read 6:read 7:read
# update 2 n pending # sent 0:write 1:write 3:write 4:write 5:write 6:write 7:write
# get 2 n pending # sent 0:read 1:read 3:read 4:read 5:read 6:read 7:read
# update 3 n pending # sent 0:write 1:write 2:write 4:write 5:write 6:write 7:write
# get 3 n pending # sent 0:read 1:read 2:read 4:read 5:read 6:read 7:read
# update 4 n pending # sent 0:write 1:write 2:write 3:write 5:write 6:write 7:write
# get 4 n pending # sent 0:read 1:read 2:read 3:read 5:read 6:read 7:read
# update 5 n pending # sent 0:write 1:write 2:write 3:write 4:write 6:write 7:write
# get 5 n pending # sent 0:read 1:read 2:read 3:read 4:read 6:read 7:read
# update 6 n pending # sent 0:write 1:write 2:write 3:write 4:write 5:write 7:write
# get 6 n pending # sent 0:read 1:read 2:read 3:read 4:read 5:read 7:read
# update 7 n pending # sent 0:write 1:write 2:write 3:write 4:write 5:write 6:write
# get 7 n pending # sent 0:read 1:read 2:read 3:read 4:read 5:read 6:read
"#,
        &[
            (1, 16, 1, MANY),
            (0, 2, 1, MANY),
            (2, 16, 1, MANY),
            (1, 2, 1, MANY),
            (3, 16, 1, MANY),
            (0, 2, 1, MANY),
            (4, 16, 1, MANY),
            (1, 2, 1, MANY),
            (5, 16, 1, MANY),
            (0, 2, 1, MANY),
            (6, 16, 1, MANY),
            (1, 2, 1, MANY),
            (7, 16, 1, MANY),
            (0, 2, 1, MANY),
            (8, 16, 1, MANY),
            (1, 2, 1, MANY),
            (9, 16, 1, MANY),
            (0, 2, 1, MANY),
            (10, 16, 1, MANY),
            (1, 2, 1, MANY),
            (11, 16, 1, MANY),
            (0, 2, 1, MANY),
            (12, 16, 1, MANY),
            (1, 2, 1, MANY),
            (13, 16, 1, MANY),
            (0, 2, 1, MANY),
            (14, 16, 1, MANY),
            (1, 2, 1, MANY),
            (15, 16, 1, MANY),
            (0, 2, 1, MANY),
            (16, 16, 1, MANY),
            (1, 2, 1, MANY),
        ],
    ),
    (
        1750,
        r#"4001 deliver 0># # write taken sent 0:write-ack
4001 deliver 0># # read taken sent 0:read-answer
"#,
        &[
            (1, 1, 250, MANY),
            (0, 2, 1, 250),
            (1, 1, 250, MANY),
            (1, 2, 1, 250),
        ],
    ),
    (
        250,
        r#"4001 deliver 1># # write taken sent 1:write-ack
4001 deliver 1># # read taken sent 1:read-answer
"#,
        &[
            (0, 1, 250, MANY),
            (0, 2, 1, 250),
            (0, 1, 250, MANY),
            (1, 2, 1, 250),
        ],
    ),
    (
        1500,
        r#"4001 deliver 1># # write taken sent 1:write-ack
4001 deliver 1># # read taken sent 1:read-answer
"#,
        &[
            (2, 1, 250, MANY),
            (0, 2, 1, 250),
            (2, 1, 250, MANY),
            (1, 2, 1, 250),
        ],
    ),
    (
        500,
        r#"4001 deliver 2># # write taken sent 2:write-ack
4001 deliver 2># # read taken sent 2:read-answer
"#,
        &[
            (0, 1, 250, MANY),
            (0, 2, 1, 250),
            (0, 1, 250, MANY),
            (1, 2, 1, 250),
        ],
    ),
    (
        1250,
        r#"4001 deliver 2># # write taken sent 2:write-ack
4001 deliver 2># # read taken sent 2:read-answer
"#,
        &[
            (3, 1, 250, MANY),
            (0, 2, 1, 250),
            (3, 1, 250, MANY),
            (1, 2, 1, 250),
        ],
    ),
    (
        750,
        r#"4001 deliver 3># # write taken sent 3:write-ack
4001 deliver 3># # read taken sent 3:read-answer
"#,
        &[
            (0, 1, 250, MANY),
            (0, 2, 1, 250),
            (0, 1, 250, MANY),
            (1, 2, 1, 250),
        ],
    ),
    (
        1000,
        r#"4001 deliver 3># # write taken sent 3:write-ack
4001 deliver 3># # read taken sent 3:read-answer
"#,
        &[
            (4, 1, 250, MANY),
            (0, 2, 1, 250),
            (4, 1, 250, MANY),
            (1, 2, 1, 250),
        ],
    ),
    (
        1000,
        r#"4001 deliver 4># # write taken sent 4:write-ack
4001 deliver 4># # read taken sent 4:read-answer
"#,
        &[
            (0, 1, 250, MANY),
            (0, 2, 1, 250),
            (0, 1, 250, MANY),
            (1, 2, 1, 250),
        ],
    ),
    (
        750,
        r#"4001 deliver 4># # write taken sent 4:write-ack
4001 deliver 4># # read taken sent 4:read-answer
"#,
        &[
            (5, 1, 250, MANY),
            (0, 2, 1, 250),
            (5, 1, 250, MANY),
            (1, 2, 1, 250),
        ],
    ),
    (
        1250,
        r#"4001 deliver 5># # write taken sent 5:write-ack
4001 deliver 5># # read taken sent 5:read-answer
"#,
        &[
            (0, 1, 250, MANY),
            (0, 2, 1, 250),
            (0, 1, 250, MANY),
            (1, 2, 1, 250),
        ],
    ),
    (
        500,
        r#"4001 deliver 5># # write taken sent 5:write-ack
4001 deliver 5># # read taken sent 5:read-answer
"#,
        &[
            (6, 1, 250, MANY),
            (0, 2, 1, 250),
            (6, 1, 250, MANY),
            (1, 2, 1, 250),
        ],
    ),
    (
        1500,
        r#"4001 deliver 6># # write taken sent 6:write-ack
4001 deliver 6># # read taken sent 6:read-answer
"#,
        &[
            (0, 1, 250, MANY),
            (0, 2, 1, 250),
            (0, 1, 250, MANY),
            (1, 2, 1, 250),
        ],
    ),
    (
        250,
        r#"4001 deliver 6># # write taken sent 6:write-ack
4001 deliver 6># # read taken sent 6:read-answer
"#,
        &[
            (7, 1, 250, MANY),
            (0, 2, 1, 250),
            (7, 1, 250, MANY),
            (1, 2, 1, 250),
        ],
    ),
    (
        1750,
        r#"4001 deliver 7># # write taken sent 7:write-ack
4001 deliver 7># # read taken sent 7:read-answer
"#,
        &[
            (0, 1, 250, MANY),
            (0, 2, 1, 250),
            (0, 1, 250, MANY),
            (1, 2, 1, 250),
        ],
    ),
    (
        1750,
        r#"4002 deliver 0># # write-ack taken
4002 deliver 0># # read-answer already
"#,
        &[
            (1, 1, 250, MANY),
            (500, 2, 1, 250),
            (1, 1, 250, MANY),
            (501, 2, 1, 250),
        ],
    ),
    (
        250,
        r#"4002 deliver 1># # write-ack taken
4002 deliver 1># # read-answer already
"#,
        &[
            (0, 1, 250, MANY),
            (500, 2, 1, 250),
            (0, 1, 250, MANY),
            (501, 2, 1, 250),
        ],
    ),
    (
        1500,
        r#"4002 deliver 1># # write-ack taken
4002 deliver 1># # read-answer already
"#,
        &[
            (2, 1, 250, MANY),
            (500, 2, 1, 250),
            (2, 1, 250, MANY),
            (501, 2, 1, 250),
        ],
    ),
    (
        500,
        r#"4002 deliver 2># # write-ack taken
4002 deliver 2># # read-answer already
"#,
        &[
            (0, 1, 250, MANY),
            (500, 2, 1, 250),
            (0, 1, 250, MANY),
            (501, 2, 1, 250),
        ],
    ),
    (
        1250,
        r#"4002 deliver 2># # write-ack taken
4002 deliver 2># # read-answer already
"#,
        &[
            (3, 1, 250, MANY),
            (500, 2, 1, 250),
            (3, 1, 250, MANY),
            (501, 2, 1, 250),
        ],
    ),
    (
        750,
        r#"4002 deliver 3># # write-ack taken
4002 deliver 3># # read-answer already
"#,
        &[
            (0, 1, 250, MANY),
            (500, 2, 1, 250),
            (0, 1, 250, MANY),
            (501, 2, 1, 250),
        ],
    ),
    (
        1000,
        r#"4002 deliver 3># # write-ack taken finished # done
4002 deliver 3># # read-answer already finished # value 2000
"#,
        &[
            (4, 1, 250, MANY),
            (500, 2, 1, 250),
            (0, 2, 1, 250),
            (4, 1, 250, MANY),
            (501, 2, 1, 250),
            (1, 2, 1, 250),
        ],
    ),
    (
        1000,
        r#"4002 deliver 4># # write-ack taken finished # done
4002 deliver 4># # read-answer already finished # value 2000
"#,
        &[
            (0, 1, 250, MANY),
            (500, 2, 1, 250),
            (0, 2, 1, 250),
            (0, 1, 250, MANY),
            (501, 2, 1, 250),
            (1, 2, 1, 250),
        ],
    ),
    (
        750,
        r#"4002 deliver 4># # write-ack taken
4002 deliver 4># # read-answer already
"#,
        &[
            (5, 1, 250, MANY),
            (500, 2, 1, 250),
            (5, 1, 250, MANY),
            (501, 2, 1, 250),
        ],
    ),
    (
        1250,
        r#"4002 deliver 5># # write-ack taken
4002 deliver 5># # read-answer already
"#,
        &[
            (0, 1, 250, MANY),
            (500, 2, 1, 250),
            (0, 1, 250, MANY),
            (501, 2, 1, 250),
        ],
    ),
    (
        500,
        r#"4002 deliver 5># # write-ack taken
4002 deliver 5># # read-answer already
"#,
        &[
            (6, 1, 250, MANY),
            (500, 2, 1, 250),
            (6, 1, 250, MANY),
            (501, 2, 1, 250),
        ],
    ),
    (
        1500,
        r#"4002 deliver 6># # write-ack taken
4002 deliver 6># # read-answer already
"#,
        &[
            (0, 1, 250, MANY),
            (500, 2, 1, 250),
            (0, 1, 250, MANY),
            (501, 2, 1, 250),
        ],
    ),
    (
        250,
        r#"4002 deliver 6># # write-ack taken
4002 deliver 6># # read-answer already
"#,
        &[
            (7, 1, 250, MANY),
            (500, 2, 1, 250),
            (7, 1, 250, MANY),
            (501, 2, 1, 250),
        ],
    ),
    (
        1750,
        r#"4002 deliver 7># # write-ack taken
4002 deliver 7># # read-answer already
"#,
        &[
            (0, 1, 250, MANY),
            (500, 2, 1, 250),
            (0, 1, 250, MANY),
            (501, 2, 1, 250),
        ],
    ),
    (
        1,
        r#"final view 0
"#,
        &[],
    ),
    (
        8,
        r#"member # place # view 0
n 2000 known 0:250 1:250 2:250 3:250 4:250 5:250 6:250 7:250 marks -
"#,
        &[(0, 1, 1, MANY), (0, 1, 1, MANY)],
    ),
];

#[test]
fn runs_4_000_operations_at_the_most_members(rt: HostRuntime) -> Result<(), Fail> {
    compare_built(&rt, rt.alloc(), OPERATIONS, OPERATIONS_REPORT)
}
