use crate::checking::compare;
use std::test::Fail;
use trial_rows::Row;

pub(crate) const A_PRUNE: &str = r#"{"members":3,"keys":[{"key":"n","kind":"gcounter"}],"steps":[
    {"do":"update","at":2,"key":"n","op":"increment","by":10},
    {"do":"flush","at":2},
    {"do":"round"},
    {"do":"remove","id":2},
    {"do":"install","at":0,"view":1},
    {"do":"install","at":1,"view":1},
    {"do":"tick","at":0},
    {"do":"tick","at":0},
    {"do":"gossip","at":1,"to":0},
    {"do":"deliver","from":1,"to":0},
    {"do":"deliver","from":0,"to":1},
    {"do":"deliver","from":1,"to":0},
    {"do":"tick","at":0},
    {"do":"get","at":0,"key":"n"},
    {"do":"get","at":1,"key":"n"}]}"#;

pub(crate) const A_PRUNE_REPORT: &str = r#"1 update 2 n done
2 flush 2 done sent 0:deltas/1/0 1:deltas/1/0
3 deliver 2>0 0 deltas/1/0 taken
3 deliver 2>1 0 deltas/1/0 taken
4 remove 2 view 1
5 install 0 view 1 installed
6 install 1 view 1 installed
7 tick 0 done n/2:marked
8 tick 0 done n/2:waiting-1
9 gossip 1 0 done sent 0:status/1
10 deliver 1>0 0 status/1 taken sent 1:gossip/1/1
11 deliver 0>1 0 gossip/1/1 taken sent 0:gossip/1/0
12 deliver 1>0 1 gossip/1/0 taken
13 tick 0 done n/2:performed
14 get 0 n value 10
15 get 1 n value 10
final view 1
member 0 place 0 view 1
n 10 known 0:1 2:1 marks 2>0@1
member 1 place 1 view 1
n 10 known 2:1 marks 2>0/1:0.1
"#;

const A_BLOCKED_PRUNE: &str = r#"{"members":2,"keys":[{"key":"n","kind":"gcounter"}],"steps":[
    {"do":"update","at":1,"key":"n","op":"increment","by":9223372036854775807},
    {"do":"update","at":0,"key":"n","op":"increment","by":1},
    {"do":"flush","at":1},
    {"do":"round"},
    {"do":"remove","id":1},
    {"do":"install","at":0,"view":1},
    {"do":"tick","at":0},
    {"do":"tick","at":0},
    {"do":"get","at":0,"key":"n"}]}"#;

const A_BLOCKED_PRUNE_REPORT: &str = r#"1 update 1 n done
2 update 0 n done
3 flush 1 done sent 0:deltas/1/0
4 deliver 1>0 0 deltas/1/0 taken
5 remove 1 view 1
6 install 0 view 1 installed
7 tick 0 done n/1:marked
8 tick 0 done n/1:blocked-1-9223372036854775807
9 get 0 n value 9223372036854775808
final view 1
member 0 place 0 view 1
n 9223372036854775808 known 0:1 1:1 marks 1>0/1:0
"#;

const A_REPLACED_DOT: &str = r#"{"members":3,"keys":[{"key":"s","kind":"orset"}],"steps":[
    {"do":"update","at":2,"key":"s","op":"add","element":"x"},
    {"do":"flush","at":2},
    {"do":"round"},
    {"do":"update","at":1,"key":"s","op":"add","element":"x"},
    {"do":"flush","at":1},
    {"do":"deliver","from":1,"to":0},
    {"do":"remove","id":2},
    {"do":"install","at":0,"view":1},
    {"do":"install","at":1,"view":1},
    {"do":"tick","at":0},
    {"do":"gossip","at":1,"to":0},
    {"do":"round"},
    {"do":"round"},
    {"do":"update","at":1,"key":"s","op":"remove","element":"x"},
    {"do":"round"},
    {"do":"tick","at":0},
    {"do":"flush","at":0},
    {"do":"flush","at":1},
    {"do":"round"}]}"#;

const A_REPLACED_DOT_REPORT: &str = r#"1 update 2 s done
2 flush 2 done sent 0:deltas/1/0 1:deltas/1/0
3 deliver 2>0 0 deltas/1/0 taken
3 deliver 2>1 0 deltas/1/0 taken
4 update 1 s done
5 flush 1 done sent 0:deltas/1/0 2:deltas/1/0
6 deliver 1>0 0 deltas/1/0 taken
7 remove 2 view 1
8 install 0 view 1 installed
9 install 1 view 1 installed
10 tick 0 done s/2:marked
11 gossip 1 0 done sent 0:status/1
12 deliver 1>0 1 status/1 taken sent 1:gossip/1/1
13 deliver 0>1 0 gossip/1/1 taken sent 0:gossip/1/0
14 update 1 s done
15 deliver 1>0 2 gossip/1/0 taken
16 tick 0 done s/2:performed
17 flush 0 done sent 1:deltas/0/1
18 flush 1 done sent 0:deltas/1/0
19 deliver 0>1 1 deltas/0/1 taken
19 deliver 1>0 3 deltas/1/0 taken
final view 1
member 0 place 0 view 1
s {} known 0:1 1:2 2:1 marks 2>0@1
member 1 place 1 view 1
s {} known 0:1 1:2 2:1 marks 2>0@1
"#;

const AN_OWNER_DEPARTS: &str = r#"{"members":4,"keys":[{"key":"n","kind":"gcounter"}],"steps":[
    {"do":"update","at":3,"key":"n","op":"increment","by":10},
    {"do":"flush","at":3},
    {"do":"round"},
    {"do":"remove","id":3},
    {"do":"install","at":0,"view":1},
    {"do":"install","at":1,"view":1},
    {"do":"install","at":2,"view":1},
    {"do":"tick","at":0},
    {"do":"gossip","at":1,"to":0},
    {"do":"gossip","at":2,"to":0},
    {"do":"round"},
    {"do":"round"},
    {"do":"round"},
    {"do":"tick","at":0},
    {"do":"flush","at":0},
    {"do":"deliver","from":0,"to":2},
    {"do":"remove","id":0},
    {"do":"install","at":1,"view":2},
    {"do":"install","at":2,"view":2},
    {"do":"deliver","from":0,"to":1},
    {"do":"tick","at":1},
    {"do":"gossip","at":2,"to":1},
    {"do":"round"},
    {"do":"round"},
    {"do":"round"},
    {"do":"tick","at":1},
    {"do":"get","at":1,"key":"n"}]}"#;

const AN_OWNER_DEPARTS_REPORT: &str = r#"1 update 3 n done
2 flush 3 done sent 0:deltas/1/0 1:deltas/1/0 2:deltas/1/0
3 deliver 3>0 0 deltas/1/0 taken
3 deliver 3>1 0 deltas/1/0 taken
3 deliver 3>2 0 deltas/1/0 taken
4 remove 3 view 1
5 install 0 view 1 installed
6 install 1 view 1 installed
7 install 2 view 1 installed
8 tick 0 done n/3:marked
9 gossip 1 0 done sent 0:status/1
10 gossip 2 0 done sent 0:status/1
11 deliver 1>0 0 status/1 taken sent 1:gossip/1/1
11 deliver 2>0 0 status/1 taken sent 2:gossip/1/1
12 deliver 0>1 0 gossip/1/1 taken sent 0:gossip/1/0
12 deliver 0>2 0 gossip/1/1 taken sent 0:gossip/1/0
13 deliver 1>0 1 gossip/1/0 taken
13 deliver 2>0 1 gossip/1/0 taken
14 tick 0 done n/3:performed
15 flush 0 done sent 1:deltas/0/1 2:deltas/0/1
16 deliver 0>2 1 deltas/0/1 taken
17 remove 0 view 2
18 install 1 view 2 installed
19 install 2 view 2 installed
20 deliver 0>1 1 deltas/0/1 not from member
21 tick 1 done n/3:marked
22 gossip 2 1 done sent 1:status/1
23 deliver 2>1 0 status/1 taken sent 2:gossip/1/1
24 deliver 1>2 0 gossip/1/1 already sent 1:gossip/1/0
25 deliver 2>1 1 gossip/1/0 taken
26 tick 1 done n/0:marked
27 get 1 n value 10
final view 2
member 1 place 1 view 2
n 10 known 0:1 3:1 marks 0>1/2:1 3>0@1
member 2 place 2 view 2
n 10 known 0:1 3:1 marks 3>0@1
"#;

const A_SECOND_PRUNE: &str = r#"{"members":3,"keys":[{"key":"n","kind":"gcounter"}],"steps":[
    {"do":"update","at":2,"key":"n","op":"increment","by":10},
    {"do":"flush","at":2},
    {"do":"round"},
    {"do":"remove","id":2},
    {"do":"install","at":0,"view":1},
    {"do":"install","at":1,"view":1},
    {"do":"tick","at":0},
    {"do":"gossip","at":1,"to":0},
    {"do":"round"},
    {"do":"round"},
    {"do":"round"},
    {"do":"tick","at":0},
    {"do":"tick","at":1},
    {"do":"flush","at":0},
    {"do":"remove","id":0},
    {"do":"install","at":1,"view":2},
    {"do":"round"},
    {"do":"tick","at":1},
    {"do":"tick","at":1},
    {"do":"get","at":1,"key":"n"}]}"#;

const A_SECOND_PRUNE_REPORT: &str = r#"1 update 2 n done
2 flush 2 done sent 0:deltas/1/0 1:deltas/1/0
3 deliver 2>0 0 deltas/1/0 taken
3 deliver 2>1 0 deltas/1/0 taken
4 remove 2 view 1
5 install 0 view 1 installed
6 install 1 view 1 installed
7 tick 0 done n/2:marked
8 gossip 1 0 done sent 0:status/1
9 deliver 1>0 0 status/1 taken sent 1:gossip/1/1
10 deliver 0>1 0 gossip/1/1 taken sent 0:gossip/1/0
11 deliver 1>0 1 gossip/1/0 taken
12 tick 0 done n/2:performed
13 tick 1 not leader 0
14 flush 0 done sent 1:deltas/0/1
15 remove 0 view 2
16 install 1 view 2 installed
17 deliver 0>1 1 deltas/0/1 not from member
18 tick 1 done n/2:marked
19 tick 1 done n/2:performed
20 get 1 n value 10
final view 2
member 1 place 1 view 2
n 10 known 1:1 2:1 marks 2>1@1
"#;

const A_PRUNE_BESIDE_A_FAILING_STORE: &str =
    r#"{"members":2,"keys":[{"key":"d","kind":"gcounter","durable":true}],"steps":[
    {"do":"update","at":1,"key":"d","op":"increment","by":3},
    {"do":"flush","at":1},
    {"do":"round"},
    {"do":"remove","id":1},
    {"do":"install","at":0,"view":1},
    {"do":"tick","at":0},
    {"do":"tick","at":0},
    {"do":"get","at":0,"key":"d"},
    {"do":"tick","at":0},
    {"do":"restart","id":0},
    {"do":"get","at":2,"key":"d"},
    {"do":"tick","at":2},
    {"do":"tick","at":2}]}"#;

const A_PRUNE_BESIDE_A_FAILING_STORE_REPORT: &str = r#"1 update 1 d done
2 flush 1 done sent 0:deltas/1/0
3 deliver 1>0 0 deltas/1/0 taken
4 remove 1 view 1
5 install 0 view 1 installed
6 tick 0 done d/1:marked
7 tick 0 store failed d/1:performed
8 get 0 d value 3
9 tick 0 done
10 restart 0 id 2 view 2
11 get 2 d value 3
12 tick 2 done d/1:marked
13 tick 2 done d/1:performed
final view 2
member 2 place 0 view 2
d 3 known 1:1 2:1 marks 1>2@1
"#;

/// The scripts, with their reports.
const ROWS: &[Row] = &[
    (A_PRUNE, &[], A_PRUNE_REPORT),
    (A_BLOCKED_PRUNE, &[], A_BLOCKED_PRUNE_REPORT),
    (A_REPLACED_DOT, &[], A_REPLACED_DOT_REPORT),
    (AN_OWNER_DEPARTS, &[], AN_OWNER_DEPARTS_REPORT),
    (A_SECOND_PRUNE, &[], A_SECOND_PRUNE_REPORT),
    (
        A_PRUNE_BESIDE_A_FAILING_STORE,
        &[3],
        A_PRUNE_BESIDE_A_FAILING_STORE_REPORT,
    ),
];

#[test]
fn members_prune_what_is_left_of_others(rt: HostRuntime) -> Result<(), Fail> {
    compare(&rt, rt.alloc(), 0, ROWS)
}
