//! Scripts that delete a key.

use crate::checking::compare;
use std::test::Fail;
use trial_rows::Row;

const DELETED_SET: &str = r#"{"members":2,"keys":[{"key":"s","kind":"orset"}],"steps":[
    {"do":"update","at":0,"key":"s","op":"add","element":"x"},
    {"do":"update","at":1,"key":"s","op":"delete"},
    {"do":"flush","at":1},
    {"do":"update","at":0,"key":"s","op":"add","element":"y"},
    {"do":"round"},
    {"do":"update","at":0,"key":"s","op":"add","element":"z"},
    {"do":"get","at":0,"key":"s"},
    {"do":"flush","at":0},
    {"do":"round"}]}"#;

const DELETED_COUNTER_PRUNES: &str =
    r#"{"members":2,"keys":[{"key":"n","kind":"gcounter"}],"steps":[
    {"do":"update","at":1,"key":"n","op":"increment","by":9223372036854775807},
    {"do":"update","at":0,"key":"n","op":"increment","by":1},
    {"do":"update","at":0,"key":"n","op":"delete"},
    {"do":"flush","at":1},
    {"do":"round"},
    {"do":"remove","id":1},
    {"do":"install","at":0,"view":1},
    {"do":"tick","at":0},
    {"do":"tick","at":0}]}"#;

const DELETED_AND_READ: &str =
    r#"{"members":2,"keys":[{"key":"f","kind":"flag","durable":true}],"steps":[
    {"do":"update","at":0,"key":"f","op":"delete","level":"all"},
    {"do":"round"},
    {"do":"round"},
    {"do":"get","at":1,"key":"f","level":"all"},
    {"do":"round"},
    {"do":"round"},
    {"do":"update","at":1,"key":"f","op":"add","element":"a","level":{"to":3}},
    {"do":"update","at":1,"key":"g","op":"delete"},
    {"do":"restart","id":1},
    {"do":"get","at":2,"key":"f"},
    {"do":"update","at":2,"key":"f","op":"delete"}]}"#;

/// A key is deleted at a majority, and a majority get at a member that still has its value finds that out.
const DELETED_AT_A_MAJORITY: &str = r#"{"members":3,"keys":[{"key":"n","kind":"gcounter"}],"steps":[
    {"do":"update","at":0,"key":"n","op":"increment","by":2},
    {"do":"flush","at":0},
    {"do":"deliver","from":0,"to":2},
    {"do":"update","at":1,"key":"n","op":"delete","level":"majority"},
    {"do":"deliver","from":1,"to":0},
    {"do":"deliver","from":0,"to":1},
    {"do":"deliver","from":0,"to":1},
    {"do":"get","at":2,"key":"n"},
    {"do":"get","at":2,"key":"n","level":"majority"},
    {"do":"deliver","from":2,"to":0},
    {"do":"deliver","from":0,"to":2},
    {"do":"deliver","from":2,"to":1},
    {"do":"deliver","from":1,"to":2},
    {"do":"deliver","from":1,"to":2},
    {"do":"update","at":2,"key":"n","op":"increment","by":1,"level":"majority"}]}"#;

/// A key of each kind is deleted, one of them before anything else was done to it.
const DELETED_OF_EACH_KIND: &str =
    r#"{"members":1,"keys":[{"key":"c","kind":"gcounter"},{"key":"f","kind":"flag"},{"key":"g","kind":"gset"},
    {"key":"o","kind":"orset"},{"key":"p","kind":"pncounter"},{"key":"r","kind":"lwwregister"}],"steps":[
    {"do":"update","at":0,"key":"c","op":"delete"},
    {"do":"update","at":0,"key":"f","op":"enable"},
    {"do":"update","at":0,"key":"f","op":"delete"},
    {"do":"update","at":0,"key":"g","op":"add","element":"x"},
    {"do":"update","at":0,"key":"g","op":"delete"},
    {"do":"update","at":0,"key":"o","op":"add","element":"x"},
    {"do":"update","at":0,"key":"o","op":"delete"},
    {"do":"update","at":0,"key":"p","op":"decrement","by":7},
    {"do":"update","at":0,"key":"p","op":"delete","level":{"to":2}},
    {"do":"update","at":0,"key":"p","op":"delete"},
    {"do":"update","at":0,"key":"r","op":"assign","text":"a","now":9223372036854775807},
    {"do":"update","at":0,"key":"r","op":"delete"},
    {"do":"update","at":0,"key":"r","op":"assign","text":"b","now":5}]}"#;

const DELETED_SET_REPORT: &str = r#"1 update 0 s done
2 update 1 s done
3 flush 1 done sent 0:deltas/1/0
4 update 0 s done
5 deliver 1>0 0 deltas/1/0 taken
6 update 0 s deleted
7 get 0 s deleted
8 flush 0 done sent 1:deltas/1/0
9 deliver 0>1 0 deltas/1/0 taken
final view 0
member 0 place 0 view 0
s deleted known 0:2 1:1 marks -
member 1 place 1 view 0
s deleted known 0:2 1:1 marks -
"#;

const DELETED_COUNTER_PRUNES_REPORT: &str = r#"1 update 1 n done
2 update 0 n done
3 update 0 n done
4 flush 1 done sent 0:deltas/1/0
5 deliver 1>0 0 deltas/1/0 taken
6 remove 1 view 1
7 install 0 view 1 installed
8 tick 0 done n/1:marked
9 tick 0 done n/1:performed
final view 1
member 0 place 0 view 1
n deleted known 0:3 1:1 marks 1>0@3
"#;

const DELETED_AND_READ_REPORT: &str = r#"1 update 0 f pending 0 sent 1:write
2 deliver 0>1 0 write taken sent 0:write-ack
3 deliver 1>0 0 write-ack taken finished 0 done
4 get 1 f pending 0 sent 0:read
5 deliver 1>0 1 read taken sent 1:read-answer
6 deliver 0>1 1 read-answer already finished 0 deleted
7 update 1 f deleted
8 update 1 g unknown key
9 restart 1 id 2 view 1
10 get 2 f deleted
11 update 2 f deleted
final view 1
member 0 place 0 view 0
f deleted known 0:1 marks -
member 2 place 1 view 1
f deleted known 0:1 marks -
"#;

const DELETED_AT_A_MAJORITY_REPORT: &str = r#"1 update 0 n done
2 flush 0 done sent 1:deltas/1/0 2:deltas/1/0
3 deliver 0>2 0 deltas/1/0 taken
4 update 1 n pending 0 sent 0:write 2:write
5 deliver 1>0 0 write taken sent 1:write-ack
6 deliver 0>1 0 deltas/1/0 taken
7 deliver 0>1 1 write-ack taken finished 0 done
8 get 2 n value 2
9 get 2 n pending 0 sent 0:read 1:read
10 deliver 2>0 0 read taken sent 2:read-answer
11 deliver 0>2 1 read-answer taken finished 0 deleted
12 deliver 2>1 0 read taken sent 2:read-answer
13 deliver 1>2 0 write already sent 1:write-ack
14 deliver 1>2 1 read-answer already
15 update 2 n deleted
final view 0
member 0 place 0 view 0
n deleted known 0:1 1:1 marks -
member 1 place 1 view 0
n deleted known 0:1 1:1 marks -
member 2 place 2 view 0
n deleted known 0:1 1:1 marks -
"#;

const DELETED_OF_EACH_KIND_REPORT: &str = r#"1 update 0 c done
2 update 0 f done
3 update 0 f done
4 update 0 g done
5 update 0 g done
6 update 0 o done
7 update 0 o done
8 update 0 p done
9 update 0 p too few
10 update 0 p done
11 update 0 r done
12 update 0 r done
13 update 0 r deleted
final view 0
member 0 place 0 view 0
c deleted known 0:1 marks -
f deleted known 0:2 marks -
g deleted known 0:2 marks -
o deleted known 0:2 marks -
p deleted known 0:2 marks -
r deleted known 0:2 marks -
"#;

/// The scripts, with their reports.
const ROWS: &[Row] = &[
    (DELETED_SET, &[], DELETED_SET_REPORT),
    (DELETED_COUNTER_PRUNES, &[], DELETED_COUNTER_PRUNES_REPORT),
    (DELETED_AND_READ, &[], DELETED_AND_READ_REPORT),
    (DELETED_AT_A_MAJORITY, &[], DELETED_AT_A_MAJORITY_REPORT),
    (DELETED_OF_EACH_KIND, &[], DELETED_OF_EACH_KIND_REPORT),
];

#[test]
fn deletes(rt: HostRuntime) -> Result<(), Fail> {
    compare(&rt, rt.alloc(), 0, ROWS)
}
