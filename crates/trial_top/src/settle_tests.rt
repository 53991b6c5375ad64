//! Scripts that settle.

use crate::checking::compare;
use std::test::Fail;
use trial_rows::Row;

pub(crate) const A_RESTART: &str =
    r#"{"members":2,"keys":[{"key":"d","kind":"gcounter","durable":true},{"key":"p","kind":"gcounter"}],"steps":[
    {"do":"update","at":1,"key":"d","op":"increment","by":3},
    {"do":"update","at":1,"key":"p","op":"increment","by":4},
    {"do":"restart","id":1},
    {"do":"get","at":2,"key":"d"},
    {"do":"get","at":2,"key":"p"},
    {"do":"get","at":1,"key":"d"},
    {"do":"settle"}]}"#;

const A_RESTART_REPORT: &str = r#"1 update 1 d done
2 update 1 p done
3 restart 1 id 2 view 1
4 get 2 d value 3
5 get 2 p not found
6 get 1 d gone
7 settle done messages 10 blocked 0
final view 1
member 0 place 0 view 1
d 3 known 0:1 1:1 marks 1>0@1
p - known - marks -
member 2 place 1 view 1
d 3 known 0:1 1:1 marks 1>0@1
p - known - marks -
"#;

const A_TIMEOUT: &str = r#"{"members":3,"keys":[{"key":"n","kind":"gcounter"}],"steps":[
    {"do":"update","at":0,"key":"n","op":"increment","by":2,"level":{"majority":0}},
    {"do":"lose","from":0,"to":1},
    {"do":"lose","from":0,"to":2},
    {"do":"timeout","at":0,"op":0},
    {"do":"get","at":0,"key":"n"},
    {"do":"timeout","at":0,"op":0},
    {"do":"settle"}]}"#;

const A_TIMEOUT_REPORT: &str = r#"1 update 0 n pending 0 sent 1:write 2:write
2 lose 0>1 0 lost
3 lose 0>2 0 lost
4 timeout 0 0 timed out
5 get 0 n value 2
6 timeout 0 0 no such op
7 settle done messages 10 blocked 0
final view 0
member 0 place 0 view 0
n 2 known 0:1 marks -
member 1 place 1 view 0
n 2 known 0:1 marks -
member 2 place 2 view 0
n 2 known 0:1 marks -
"#;

const A_REGISTER: &str = r#"{"members":2,"keys":[{"key":"r","kind":"lwwregister"}],"steps":[
    {"do":"update","at":0,"key":"r","op":"assign","text":"a","now":100},
    {"do":"update","at":1,"key":"r","op":"assign","text":"b","now":100},
    {"do":"settle"},
    {"do":"get","at":1,"key":"r"},
    {"do":"update","at":1,"key":"r","op":"assign","text":"c","now":50},
    {"do":"flush","at":1},
    {"do":"round"},
    {"do":"get","at":0,"key":"r"},
    {"do":"update","at":0,"key":"r","op":"assign","text":"d","now":9223372036854775807},
    {"do":"update","at":0,"key":"r","op":"assign","text":"e","now":5}]}"#;

const A_REGISTER_REPORT: &str = r#"1 update 0 r done
2 update 1 r done
3 settle done messages 6 blocked 0
4 get 1 r value "a"
5 update 1 r done
6 flush 1 done sent 0:deltas/1/0
7 deliver 1>0 5 deltas/1/0 taken
8 get 0 r value "c"
9 update 0 r done
10 update 0 r clock spent
final view 0
member 0 place 0 view 0
r "d" known 0:2 1:2 marks -
member 1 place 1 view 0
r "c" known 0:1 1:2 marks -
"#;

pub(crate) const CARTS: &str = r#"{"members":5,"keys":[
    {"key":"cart-ann","kind":"orset","durable":true},
    {"key":"cart-bob","kind":"orset","durable":true},
    {"key":"cart-eve","kind":"orset","durable":true},
    {"key":"hits","kind":"gcounter"}],"steps":[
    {"do":"update","at":0,"key":"cart-ann","op":"add","element":"milk"},
    {"do":"update","at":1,"key":"cart-ann","op":"add","element":"bread"},
    {"do":"update","at":2,"key":"cart-bob","op":"add","element":"tea"},
    {"do":"update","at":3,"key":"cart-eve","op":"add","element":"rice 1 kg"},
    {"do":"flush","at":0},
    {"do":"lose","from":0,"to":3},
    {"do":"lose","from":0,"to":4},
    {"do":"flush","at":3},
    {"do":"round"},
    {"do":"update","at":1,"key":"cart-ann","op":"remove","element":"milk"},
    {"do":"restart","id":4},
    {"do":"remove","id":3},
    {"do":"settle"}]}"#;

const CARTS_REPORT: &str = r#"1 update 0 cart-ann done
2 update 1 cart-ann done
3 update 2 cart-bob done
4 update 3 cart-eve done
5 flush 0 done sent 1:deltas/1/0 2:deltas/1/0 3:deltas/1/0 4:deltas/1/0
6 lose 0>3 0 lost
7 lose 0>4 0 lost
8 flush 3 done sent 0:deltas/1/0 1:deltas/1/0 2:deltas/1/0 4:deltas/1/0
9 deliver 0>1 0 deltas/1/0 taken
9 deliver 0>2 0 deltas/1/0 taken
9 deliver 3>0 0 deltas/1/0 taken
9 deliver 3>1 0 deltas/1/0 taken
9 deliver 3>2 0 deltas/1/0 taken
9 deliver 3>4 0 deltas/1/0 taken
10 update 1 cart-ann done
11 restart 4 id 5 view 1
12 remove 3 view 2
13 settle done messages 30 blocked 0
final view 2
member 0 place 0 view 2
cart-ann {"bread"} known 0:1 1:2 marks -
cart-bob {"tea"} known 2:1 marks -
cart-eve {"rice 1 kg"} known 0:1 3:1 marks 3>0@1
hits - known - marks -
member 1 place 1 view 2
cart-ann {"bread"} known 0:1 1:2 marks -
cart-bob {"tea"} known 2:1 marks -
cart-eve {"rice 1 kg"} known 0:1 3:1 marks 3>0@1
hits - known - marks -
member 2 place 2 view 2
cart-ann {"bread"} known 0:1 1:2 marks -
cart-bob {"tea"} known 2:1 marks -
cart-eve {"rice 1 kg"} known 0:1 3:1 marks 3>0@1
hits - known - marks -
member 5 place 4 view 2
cart-ann {"bread"} known 0:1 1:2 marks -
cart-bob {"tea"} known 2:1 marks -
cart-eve {"rice 1 kg"} known 0:1 3:1 marks 3>0@1
hits - known - marks -
"#;

/// The scripts, with their reports.
const ROWS: &[Row] = &[
    (A_RESTART, &[], A_RESTART_REPORT),
    (A_TIMEOUT, &[], A_TIMEOUT_REPORT),
    (A_REGISTER, &[], A_REGISTER_REPORT),
    (CARTS, &[], CARTS_REPORT),
];

#[test]
fn members_settle(rt: HostRuntime) -> Result<(), Fail> {
    compare(&rt, rt.alloc(), 1, ROWS)
}
