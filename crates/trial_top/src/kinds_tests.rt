//! Scripts of each kind of values, of delta groups and of gossip.

use crate::checking::{compare, compare_built};
use std::test::Fail;
use trial_rows::{MANY, Row, Section};

pub(crate) const EMPTY: &str =
    "{\"members\":1,\"keys\":[{\"key\":\"n\",\"kind\":\"gcounter\"}],\"steps\":[]}";

const ONE_MEMBER: &str =
    "{\"members\":1,\"keys\":[{\"key\":\"n\",\"kind\":\"gcounter\"}],\"steps\":[\
    {\"do\":\"update\",\"at\":0,\"key\":\"n\",\"op\":\"increment\",\"by\":5},\
    {\"do\":\"update\",\"at\":0,\"key\":\"n\",\"op\":\"increment\",\"by\":9223372036854775807},\
    {\"do\":\"get\",\"at\":0,\"key\":\"n\"},\
    {\"do\":\"update\",\"at\":1,\"key\":\"n\",\"op\":\"increment\",\"by\":1},\
    {\"do\":\"get\",\"at\":0,\"key\":\"zz\"}]}";

const TWO_MEMBERS: &str =
    "{\"members\":2,\"keys\":[{\"key\":\"n\",\"kind\":\"gcounter\"}],\"steps\":[\
    {\"do\":\"update\",\"at\":0,\"key\":\"n\",\"op\":\"increment\",\"by\":5},\
    {\"do\":\"update\",\"at\":1,\"key\":\"n\",\"op\":\"increment\",\"by\":7},\
    {\"do\":\"flush\",\"at\":0},\
    {\"do\":\"deliver\",\"from\":0,\"to\":1},\
    {\"do\":\"deliver\",\"from\":0,\"to\":1,\"index\":0},\
    {\"do\":\"lose\",\"from\":0,\"to\":1},\
    {\"do\":\"get\",\"at\":1,\"key\":\"n\"}]}";

const THREE_MEMBERS: &str =
    "{\"members\":3,\"keys\":[{\"key\":\"n\",\"kind\":\"gcounter\"}],\"steps\":[\
    {\"do\":\"update\",\"at\":0,\"key\":\"n\",\"op\":\"increment\",\"by\":1},\
    {\"do\":\"update\",\"at\":1,\"key\":\"n\",\"op\":\"increment\",\"by\":2},\
    {\"do\":\"flush\",\"at\":0},\
    {\"do\":\"flush\",\"at\":1},\
    {\"do\":\"lose\",\"from\":0,\"to\":2},\
    {\"do\":\"round\"},\
    {\"do\":\"get\",\"at\":2,\"key\":\"n\"},\
    {\"do\":\"round\"}]}";

const OTHER_KINDS: &str = r#"{"members":1,"keys":[{"key":"c","kind":"pncounter"},
    {"key":"f","kind":"flag"},{"key":"g","kind":"gset"}],"steps":[
    {"do":"update","at":0,"key":"c","op":"increment","by":3},
    {"do":"update","at":0,"key":"c","op":"decrement","by":5},
    {"do":"get","at":0,"key":"c"},
    {"do":"update","at":0,"key":"f","op":"enable"},
    {"do":"get","at":0,"key":"f"},
    {"do":"update","at":0,"key":"g","op":"add","element":"b"},
    {"do":"update","at":0,"key":"g","op":"add","element":"a"},
    {"do":"get","at":0,"key":"g"},
    {"do":"update","at":0,"key":"c","op":"decrement","by":9223372036854775807}]}"#;

const FLUSHED_REGISTER: &str = r#"{"members":2,"keys":[{"key":"r","kind":"lwwregister"}],"steps":[
    {"do":"update","at":0,"key":"r","op":"assign","text":"a","now":100},
    {"do":"update","at":1,"key":"r","op":"assign","text":"b","now":100},
    {"do":"flush","at":0},
    {"do":"flush","at":1},
    {"do":"round"},
    {"do":"get","at":1,"key":"r"}]}"#;

const REPEATS: &str = r#"{"members":2,"keys":[{"key":"n","kind":"gcounter"}],"steps":[
    {"do":"update","at":0,"key":"n","op":"increment","by":5},
    {"do":"update","at":1,"key":"n","op":"increment","by":7},
    {"do":"flush","at":0},
    {"do":"deliver","from":0,"to":1},
    {"do":"deliver","from":0,"to":1,"index":0},
    {"do":"get","at":0,"key":"n"},
    {"do":"get","at":1,"key":"n"}]}"#;

const ADD_WINS: &str = r#"{"members":2,"keys":[{"key":"s","kind":"orset"}],"steps":[
    {"do":"update","at":0,"key":"s","op":"add","element":"x"},
    {"do":"flush","at":0},
    {"do":"deliver","from":0,"to":1},
    {"do":"update","at":0,"key":"s","op":"remove","element":"x"},
    {"do":"update","at":1,"key":"s","op":"add","element":"x"},
    {"do":"flush","at":0},
    {"do":"flush","at":1},
    {"do":"round"}]}"#;

const DELTA_OVERTAKES_ITS_CAUSE: &str =
    r#"{"members":3,"keys":[{"key":"s","kind":"orset"}],"steps":[
    {"do":"update","at":1,"key":"s","op":"add","element":"x"},
    {"do":"flush","at":1},
    {"do":"deliver","from":1,"to":0},
    {"do":"update","at":0,"key":"s","op":"remove","element":"x"},
    {"do":"flush","at":0},
    {"do":"deliver","from":0,"to":2},
    {"do":"deliver","from":2,"to":0},
    {"do":"deliver","from":0,"to":2},
    {"do":"get","at":2,"key":"s"},
    {"do":"deliver","from":1,"to":2}]}"#;

const GOSSIP: &str = r#"{"members":2,"keys":[{"key":"n","kind":"gcounter"}],"steps":[
    {"do":"update","at":0,"key":"n","op":"increment","by":5},
    {"do":"gossip","at":1,"to":0},
    {"do":"round"},
    {"do":"round"},
    {"do":"gossip","at":1,"to":0},
    {"do":"round"},
    {"do":"get","at":1,"key":"n"}]}"#;

const GOSSIP_TO_NO_PEER: &str = r#"{"members":2,"keys":[{"key":"n","kind":"gcounter"}],"steps":[
    {"do":"gossip","at":0,"to":0},
    {"do":"gossip","at":0,"to":2},
    {"do":"gossip","at":2,"to":0}]}"#;

const REFUSED: &str =
    r#"{"members":1,"keys":[{"key":"r","kind":"lwwregister"},{"key":"n","kind":"gcounter"}],"steps":[
    {"do":"update","at":0,"key":"n","op":"add","element":"x"},
    {"do":"get","at":0,"key":"n"},
    {"do":"update","at":0,"key":"r","op":"assign","text":"d","now":9223372036854775807},
    {"do":"update","at":0,"key":"r","op":"assign","text":"e","now":5}]}"#;

const EMPTY_REPORT: &str = "final view 0\nmember 0 place 0 view 0\nn - known - marks -\n";

const ONE_MEMBER_REPORT: &str = "1 update 0 n done\n\
    2 update 0 n overflow 5 9223372036854775807\n\
    3 get 0 n value 5\n\
    4 update 1 n gone\n\
    5 get 0 zz unknown key\n\
    final view 0\n\
    member 0 place 0 view 0\n\
    n 5 known 0:1 marks -\n";

const TWO_MEMBERS_REPORT: &str = "1 update 0 n done\n\
    2 update 1 n done\n\
    3 flush 0 done sent 1:deltas/1/0\n\
    4 deliver 0>1 0 deltas/1/0 taken\n\
    5 deliver 0>1 0 deltas/1/0 already\n\
    6 lose 0>1 1 no such message\n\
    7 get 1 n value 12\n\
    final view 0\n\
    member 0 place 0 view 0\n\
    n 5 known 0:1 marks -\n\
    member 1 place 1 view 0\n\
    n 12 known 0:1 1:1 marks -\n";

const THREE_MEMBERS_REPORT: &str = "1 update 0 n done\n\
    2 update 1 n done\n\
    3 flush 0 done sent 1:deltas/1/0 2:deltas/1/0\n\
    4 flush 1 done sent 0:deltas/1/0 2:deltas/1/0\n\
    5 lose 0>2 0 lost\n\
    6 deliver 0>1 0 deltas/1/0 taken\n\
    6 deliver 1>0 0 deltas/1/0 taken\n\
    6 deliver 1>2 0 deltas/1/0 taken\n\
    7 get 2 n value 2\n\
    8 round nothing\n\
    final view 0\n\
    member 0 place 0 view 0\n\
    n 3 known 0:1 1:1 marks -\n\
    member 1 place 1 view 0\n\
    n 3 known 0:1 1:1 marks -\n\
    member 2 place 2 view 0\n\
    n 2 known 1:1 marks -\n";

const OTHER_KINDS_REPORT: &str = r#"1 update 0 c done
2 update 0 c done
3 get 0 c value -2
4 update 0 f done
5 get 0 f value true
6 update 0 g done
7 update 0 g done
8 get 0 g value {"a","b"}
9 update 0 c overflow 5 9223372036854775807
final view 0
member 0 place 0 view 0
c -2 known 0:2 marks -
f true known 0:1 marks -
g {"a","b"} known 0:2 marks -
"#;

const FLUSHED_REGISTER_REPORT: &str = r#"1 update 0 r done
2 update 1 r done
3 flush 0 done sent 1:deltas/1/0
4 flush 1 done sent 0:deltas/1/0
5 deliver 0>1 0 deltas/1/0 taken
5 deliver 1>0 0 deltas/1/0 taken
6 get 1 r value "a"
final view 0
member 0 place 0 view 0
r "a" known 0:1 1:1 marks -
member 1 place 1 view 0
r "a" known 0:1 1:1 marks -
"#;

const REPEATS_REPORT: &str = r#"1 update 0 n done
2 update 1 n done
3 flush 0 done sent 1:deltas/1/0
4 deliver 0>1 0 deltas/1/0 taken
5 deliver 0>1 0 deltas/1/0 already
6 get 0 n value 5
7 get 1 n value 12
final view 0
member 0 place 0 view 0
n 5 known 0:1 marks -
member 1 place 1 view 0
n 12 known 0:1 1:1 marks -
"#;

const ADD_WINS_REPORT: &str = r#"1 update 0 s done
2 flush 0 done sent 1:deltas/1/0
3 deliver 0>1 0 deltas/1/0 taken
4 update 0 s done
5 update 1 s done
6 flush 0 done sent 1:deltas/1/0
7 flush 1 done sent 0:deltas/1/0
8 deliver 0>1 1 deltas/1/0 taken
8 deliver 1>0 0 deltas/1/0 taken
final view 0
member 0 place 0 view 0
s {"x"} known 0:2 1:1 marks -
member 1 place 1 view 0
s {"x"} known 0:2 1:1 marks -
"#;

const DELTA_OVERTAKES_ITS_CAUSE_REPORT: &str = r#"1 update 1 s done
2 flush 1 done sent 0:deltas/1/0 2:deltas/1/0
3 deliver 1>0 0 deltas/1/0 taken
4 update 0 s done
5 flush 0 done sent 1:deltas/1/0 2:deltas/1/0
6 deliver 0>2 0 deltas/1/0 gap 1 sent 0:nack/1
7 deliver 2>0 0 nack/1 taken sent 2:gossip/1/0
8 deliver 0>2 1 gossip/1/0 taken
9 get 2 s value {}
10 deliver 1>2 0 deltas/1/0 already
final view 0
member 0 place 0 view 0
s {} known 0:1 1:1 marks -
member 1 place 1 view 0
s {"x"} known 1:1 marks -
member 2 place 2 view 0
s {} known 0:1 1:1 marks -
"#;

const GOSSIP_REPORT: &str = r#"1 update 0 n done
2 gossip 1 0 done sent 0:status/0
3 deliver 1>0 0 status/0 taken sent 1:gossip/1/0
4 deliver 0>1 0 gossip/1/0 taken
5 gossip 1 0 done sent 0:status/1
6 deliver 1>0 1 status/1 taken
7 get 1 n value 5
final view 0
member 0 place 0 view 0
n 5 known 0:1 marks -
member 1 place 1 view 0
n 5 known 0:1 marks -
"#;

const GOSSIP_TO_NO_PEER_REPORT: &str = r#"1 gossip 0 0 not a peer
2 gossip 0 2 not a peer
3 gossip 2 0 gone
final view 0
member 0 place 0 view 0
n - known - marks -
member 1 place 1 view 0
n - known - marks -
"#;

const REFUSED_REPORT: &str = r#"1 update 0 n wrong kind
2 get 0 n not found
3 update 0 r done
4 update 0 r clock spent
final view 0
member 0 place 0 view 0
n - known - marks -
r "d" known 0:1 marks -
"#;

/// The scripts, with their reports.
const ROWS: &[Row] = &[
    (EMPTY, &[], EMPTY_REPORT),
    (ONE_MEMBER, &[], ONE_MEMBER_REPORT),
    (TWO_MEMBERS, &[], TWO_MEMBERS_REPORT),
    (THREE_MEMBERS, &[], THREE_MEMBERS_REPORT),
    (OTHER_KINDS, &[], OTHER_KINDS_REPORT),
    (FLUSHED_REGISTER, &[], FLUSHED_REGISTER_REPORT),
    (REPEATS, &[], REPEATS_REPORT),
    (ADD_WINS, &[], ADD_WINS_REPORT),
    (
        DELTA_OVERTAKES_ITS_CAUSE,
        &[],
        DELTA_OVERTAKES_ITS_CAUSE_REPORT,
    ),
    (GOSSIP, &[], GOSSIP_REPORT),
    (GOSSIP_TO_NO_PEER, &[], GOSSIP_TO_NO_PEER_REPORT),
    (REFUSED, &[], REFUSED_REPORT),
];

#[test]
fn prints_the_report(rt: HostRuntime) -> Result<(), Fail> {
    compare(&rt, rt.alloc(), 0, ROWS)
}

const FIFTY: &[Section] = &[
    (
        1,
        r#"{"members":2,"keys":[{"key":"n","kind":"gcounter"}],"steps":["#,
        &[],
    ),
    (
        50,
        r#"{"do":"update","at":0,"key":"n","op":"increment","by":1},"#,
        &[],
    ),
    (1, r#"{"do":"flush","at":0}]}"#, &[]),
];

const FIFTY_REPORT: &[Section] = &[
    (
        50,
        r#"# update 0 n done
"#,
        &[(1, 1, 1, MANY)],
    ),
    (
        1,
        r#"51 flush 0 done sent 1:deltas/1/0
final view 0
member 0 place 0 view 0
n 50 known 0:50 marks -
member 1 place 1 view 0
n - known - marks -
"#,
        &[],
    ),
];

const FIFTY_ONE: &[Section] = &[
    (
        1,
        r#"{"members":2,"keys":[{"key":"n","kind":"gcounter"}],"steps":["#,
        &[],
    ),
    (
        51,
        r#"{"do":"update","at":0,"key":"n","op":"increment","by":1},"#,
        &[],
    ),
    (1, r#"{"do":"flush","at":0}]}"#, &[]),
];

const FIFTY_ONE_REPORT: &[Section] = &[
    (
        51,
        r#"# update 0 n done
"#,
        &[(1, 1, 1, MANY)],
    ),
    (
        1,
        r#"52 flush 0 done sent 1:deltas/0/1
final view 0
member 0 place 0 view 0
n 51 known 0:51 marks -
member 1 place 1 view 0
n - known - marks -
"#,
        &[],
    ),
];

#[test]
fn fifty_records_go_as_a_group_and_fifty_one_as_the_entry(rt: HostRuntime) -> Result<(), Fail> {
    compare_built(&rt, rt.alloc(), FIFTY, FIFTY_REPORT)?;
    compare_built(&rt, rt.alloc(), FIFTY_ONE, FIFTY_ONE_REPORT)
}
