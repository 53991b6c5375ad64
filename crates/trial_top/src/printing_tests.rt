//! Elements whose text is escaped, and sums beyond 64 bits.

use crate::checking::compare;
use std::test::Fail;

const ESCAPED: &str = r#"{"members":1,"keys":[{"key":"s","kind":"gset"}],"steps":[
    {"do":"update","at":0,"key":"s","op":"add","element":"\ud83d\ude00"},
    {"do":"update","at":0,"key":"s","op":"add","element":"\u2028"},
    {"do":"update","at":0,"key":"s","op":"add","element":"\\"},
    {"do":"update","at":0,"key":"s","op":"add","element":"\""},
    {"do":"update","at":0,"key":"s","op":"add","element":"\u0001"},
    {"do":"update","at":0,"key":"s","op":"add","element":"\n"},
    {"do":"update","at":0,"key":"s","op":"add","element":"/"}]}"#;

// Each member adds 2^63 - 1 to one counter, and takes as much from the other.
const SUMS: &str =
    r#"{"members":3,"keys":[{"key":"g","kind":"gcounter"},{"key":"p","kind":"pncounter"}],"steps":[
    {"do":"update","at":0,"key":"g","op":"increment","by":9223372036854775807},
    {"do":"update","at":0,"key":"p","op":"decrement","by":9223372036854775807},
    {"do":"flush","at":0},
    {"do":"update","at":1,"key":"g","op":"increment","by":9223372036854775807},
    {"do":"update","at":1,"key":"p","op":"decrement","by":9223372036854775807},
    {"do":"flush","at":1},
    {"do":"update","at":2,"key":"g","op":"increment","by":9223372036854775807},
    {"do":"update","at":2,"key":"p","op":"decrement","by":9223372036854775807},
    {"do":"flush","at":2},
    {"do":"round"},
    {"do":"get","at":0,"key":"g"},
    {"do":"get","at":1,"key":"p"}]}"#;

// In the order of their bytes: U+0001, U+000A, 22, 2F, 5C, then E2 80 A8 for U+2028 and F0 9F 98 80 for U+1F600.
const ESCAPED_REPORT: &str = "1 update 0 s done\n\
    2 update 0 s done\n\
    3 update 0 s done\n\
    4 update 0 s done\n\
    5 update 0 s done\n\
    6 update 0 s done\n\
    7 update 0 s done\n\
    final view 0\n\
    member 0 place 0 view 0\n\
    s {\"\\u0001\",\"\\n\",\"\\\"\",\"/\",\"\\\\\",\"\u{2028}\",\"\u{1f600}\"} known 0:7 marks -\n";

const SUMS_REPORT: &str = "1 update 0 g done\n\
    2 update 0 p done\n\
    3 flush 0 done sent 1:deltas/2/0 2:deltas/2/0\n\
    4 update 1 g done\n\
    5 update 1 p done\n\
    6 flush 1 done sent 0:deltas/2/0 2:deltas/2/0\n\
    7 update 2 g done\n\
    8 update 2 p done\n\
    9 flush 2 done sent 0:deltas/2/0 1:deltas/2/0\n\
    10 deliver 0>1 0 deltas/2/0 taken\n\
    10 deliver 0>2 0 deltas/2/0 taken\n\
    10 deliver 1>0 0 deltas/2/0 taken\n\
    10 deliver 1>2 0 deltas/2/0 taken\n\
    10 deliver 2>0 0 deltas/2/0 taken\n\
    10 deliver 2>1 0 deltas/2/0 taken\n\
    11 get 0 g value 27670116110564327421\n\
    12 get 1 p value -27670116110564327421\n\
    final view 0\n\
    member 0 place 0 view 0\n\
    g 27670116110564327421 known 0:1 1:1 2:1 marks -\n\
    p -27670116110564327421 known 0:1 1:1 2:1 marks -\n\
    member 1 place 1 view 0\n\
    g 27670116110564327421 known 0:1 1:1 2:1 marks -\n\
    p -27670116110564327421 known 0:1 1:1 2:1 marks -\n\
    member 2 place 2 view 0\n\
    g 27670116110564327421 known 0:1 1:1 2:1 marks -\n\
    p -27670116110564327421 known 0:1 1:1 2:1 marks -\n";

#[test]
fn prints_escapes_and_sums(rt: HostRuntime) -> Result<(), Fail> {
    let alloc = rt.alloc();
    let none: &[u64] = &[];
    let rows = [(ESCAPED, none, ESCAPED_REPORT), (SUMS, none, SUMS_REPORT)];
    compare(&rt, alloc, 0, &rows)
}
