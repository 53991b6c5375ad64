ghost use Rattle.std.specs.Prelude.{◌≡◌, length, IfOk};

use crate::checking::{check, compare, compare_built};
use member_sqlite::SqliteKeeper;
use std::alloc::Global;
use std::test::Fail;
use top_call::Status;
use trial_rows::{MANY, Row, Section, keepers, loading_keepers, printed};

const LATE_MESSAGES_OF_THE_REMOVED: &str =
    r#"{"members":3,"keys":[{"key":"n","kind":"gcounter"}],"steps":[
    {"do":"update","at":2,"key":"n","op":"increment","by":4},
    {"do":"flush","at":2},
    {"do":"remove","id":2},
    {"do":"install","at":0,"view":1},
    {"do":"deliver","from":2,"to":0},
    {"do":"deliver","from":2,"to":1},
    {"do":"get","at":0,"key":"n"},
    {"do":"get","at":1,"key":"n"},
    {"do":"install","at":1,"view":1},
    {"do":"gossip","at":1,"to":0},
    {"do":"round"},
    {"do":"round"},
    {"do":"round"},
    {"do":"get","at":0,"key":"n"}]}"#;

const LATE_MESSAGES_OF_THE_REMOVED_REPORT: &str = r#"1 update 2 n done
2 flush 2 done sent 0:deltas/1/0 1:deltas/1/0
3 remove 2 view 1
4 install 0 view 1 installed
5 deliver 2>0 0 deltas/1/0 not from member
6 deliver 2>1 0 deltas/1/0 taken
7 get 0 n not found
8 get 1 n value 4
9 install 1 view 1 installed
10 gossip 1 0 done sent 0:status/1
11 deliver 1>0 0 status/1 taken sent 1:gossip/0/1
12 deliver 0>1 0 gossip/0/1 already sent 0:gossip/1/0
13 deliver 1>0 1 gossip/1/0 taken
14 get 0 n value 4
final view 1
member 0 place 0 view 1
n 4 known 2:1 marks -
member 1 place 1 view 1
n 4 known 2:1 marks -
"#;

const RESTART: &str =
    r#"{"members":2,"keys":[{"key":"d","kind":"gcounter","durable":true},{"key":"p","kind":"gcounter"}],"steps":[
    {"do":"update","at":1,"key":"d","op":"increment","by":3},
    {"do":"update","at":1,"key":"p","op":"increment","by":4},
    {"do":"restart","id":1},
    {"do":"get","at":2,"key":"d"},
    {"do":"get","at":2,"key":"p"},
    {"do":"get","at":1,"key":"d"}]}"#;

const RESTART_REPORT: &str = r#"1 update 1 d done
2 update 1 p done
3 restart 1 id 2 view 1
4 get 2 d value 3
5 get 2 p not found
6 get 1 d gone
final view 1
member 0 place 0 view 0
d - known - marks -
p - known - marks -
member 2 place 1 view 1
d 3 known 1:1 marks -
p - known - marks -
"#;

const COMING_BACK: &str =
    r#"{"members":2,"keys":[{"key":"stock","kind":"pncounter","durable":true}],"steps":[
    {"do":"update","at":1,"key":"stock","op":"increment","by":10},
    {"do":"flush","at":1},
    {"do":"round"},
    {"do":"remove","id":1},
    {"do":"install","at":0,"view":1},
    {"do":"join","place":1},
    {"do":"get","at":2,"key":"stock"},
    {"do":"install","at":0,"view":2},
    {"do":"gossip","at":2,"to":0},
    {"do":"round"},
    {"do":"round"},
    {"do":"get","at":2,"key":"stock"},
    {"do":"update","at":2,"key":"stock","op":"decrement","by":4},
    {"do":"flush","at":2},
    {"do":"round"},
    {"do":"get","at":0,"key":"stock"},
    {"do":"get","at":1,"key":"stock"}]}"#;

const COMING_BACK_REPORT: &str = r#"1 update 1 stock done
2 flush 1 done sent 0:deltas/1/0
3 deliver 1>0 0 deltas/1/0 taken
4 remove 1 view 1
5 install 0 view 1 installed
6 join 1 id 2 view 2
7 get 2 stock not found
8 install 0 view 2 installed
9 gossip 2 0 done sent 0:status/0
10 deliver 2>0 0 status/0 taken sent 2:gossip/1/0
11 deliver 0>2 0 gossip/1/0 taken
12 get 2 stock value 10
13 update 2 stock done
14 flush 2 done sent 0:deltas/1/0
15 deliver 2>0 1 deltas/1/0 taken
16 get 0 stock value 6
17 get 1 stock gone
final view 2
member 0 place 0 view 2
stock 6 known 1:1 2:1 marks -
member 2 place 1 view 2
stock 6 known 1:1 2:1 marks -
"#;

const REFUSALS: &str = r#"{"members":2,"keys":[{"key":"n","kind":"gcounter"}],"steps":[
    {"do":"update","at":7,"key":"n","op":"increment","by":1},
    {"do":"install","at":7,"view":9},
    {"do":"install","at":0,"view":0},
    {"do":"install","at":0,"view":3},
    {"do":"remove","id":7},
    {"do":"restart","id":7},
    {"do":"join","place":1},
    {"do":"remove","id":1},
    {"do":"remove","id":0},
    {"do":"restart","id":1},
    {"do":"join","place":1},
    {"do":"deliver","from":1,"to":0}]}"#;

const REFUSALS_REPORT: &str = r#"1 update 7 n gone
2 install 7 view 9 gone
3 install 0 view 0 old view
4 install 0 view 3 no such view
5 remove 7 gone
6 restart 7 gone
7 join 1 place taken
8 remove 1 view 1
9 remove 0 last member
10 restart 1 gone
11 join 1 id 2 view 2
12 deliver 1>0 0 no such message
final view 2
member 0 place 0 view 0
n - known - marks -
member 2 place 1 view 2
n - known - marks -
"#;

const FAILING_STORE: &str =
    r#"{"members":2,"keys":[{"key":"d","kind":"gcounter","durable":true}],"steps":[
    {"do":"update","at":1,"key":"d","op":"increment","by":1},
    {"do":"update","at":1,"key":"d","op":"increment","by":2},
    {"do":"get","at":1,"key":"d"},
    {"do":"restart","id":1},
    {"do":"get","at":2,"key":"d"}]}"#;

const STORE_FAILED_REPORT: &str = r#"1 update 1 d done
2 update 1 d store failed
3 get 1 d value 3
4 restart 1 id 2 view 1
5 get 2 d value 1
final view 1
member 0 place 0 view 0
d - known - marks -
member 2 place 1 view 1
d 1 known 1:1 marks -
"#;

const LOAD_FAILED_REPORT: &str = r#"1 update 1 d done
2 update 1 d done
3 get 1 d value 3
4 restart 1 load failed
5 get 2 d gone
final view 0
member 0 place 0 view 0
d - known - marks -
member 1 place 1 view 0
d 3 known 1:2 marks -
"#;

const DAMAGED_REPORT: &str = r#"1 update 1 d done
2 update 1 d done
3 get 1 d value 3
4 restart 1 damaged d
5 get 2 d gone
final view 0
member 0 place 0 view 0
d - known - marks -
member 1 place 1 view 0
d 3 known 1:2 marks -
"#;

const FAILING_CLEAR: &str =
    r#"{"members":2,"keys":[{"key":"d","kind":"gcounter","durable":true}],"steps":[
    {"do":"remove","id":1},
    {"do":"join","place":1},
    {"do":"join","place":1}]}"#;

const CLEAR_FAILED_REPORT: &str = r#"1 remove 1 view 1
2 join 1 clear failed
3 join 1 id 2 view 2
final view 2
member 0 place 0 view 0
d - known - marks -
member 2 place 1 view 2
d - known - marks -
"#;

/// The scripts, with their reports.
const ROWS: &[Row] = &[
    (
        LATE_MESSAGES_OF_THE_REMOVED,
        &[],
        LATE_MESSAGES_OF_THE_REMOVED_REPORT,
    ),
    (RESTART, &[], RESTART_REPORT),
    (COMING_BACK, &[], COMING_BACK_REPORT),
    (REFUSALS, &[], REFUSALS_REPORT),
    (FAILING_STORE, &[2], STORE_FAILED_REPORT),
    (FAILING_STORE, &[3], LOAD_FAILED_REPORT),
    (FAILING_CLEAR, &[1], CLEAR_FAILED_REPORT),
];

#[test]
fn members_leave_join_and_restart(rt: HostRuntime) -> Result<(), Fail> {
    compare(&rt, rt.alloc(), 1, ROWS)
}

/// A keeper over a database in memory for each place, as the program has.
fn databases(alloc: Global) -> Result<Vec<SqliteKeeper>, Fail>
    ensures { IfOk result (λ keepers. length keepers.items ≡ 8) }
{
    let mut keepers = Vec::new(alloc);
    for _place in 0..8_usize {
        keepers.push(SqliteKeeper::in_memory(alloc))?;
    }
    Ok(keepers)
}

#[test]
fn a_restart_over_databases(rt: HostRuntime) -> Result<(), Fail> {
    let answer = printed(rt.alloc(), RESTART, databases(rt.alloc())?)?;
    check(
        &rt,
        &answer,
        Status::Done,
        RESTART_REPORT.as_bytes(),
        "databases",
    );
    Ok(())
}

#[test]
fn what_is_loaded_may_be_damaged(rt: HostRuntime) -> Result<(), Fail> {
    let alloc = rt.alloc();
    let answer = printed(alloc, FAILING_STORE, loading_keepers(alloc, &[0xff])?)?;
    check(&rt, &answer, Status::Done, DAMAGED_REPORT.as_bytes(), 1);
    Ok(())
}

#[test]
fn a_place_that_is_not_cleared_ends_the_run(rt: HostRuntime) -> Result<(), Fail> {
    let alloc = rt.alloc();
    for place in 0..8_usize {
        let answer = printed(alloc, RESTART, keepers(alloc, place, &[0])?)?;
        let text = format!(in alloc; "store failed at {place}\n")?;
        check(&rt, &answer, Status::ClearFailed, text.as_bytes(), place);
    }
    Ok(())
}

/// Three members and as many restarts of the last one as there are identities, and what comes then.
const RESTARTS: &[Section] = &[
    (
        1,
        r#"{"members":3,"keys":[{"key":"n","kind":"gcounter"}],"steps":["#,
        &[],
    ),
    (252, r#"{"do":"restart","id":#},"#, &[(2, 1, 1, MANY)]),
    (
        1,
        r#"{"do":"restart","id":254},{"do":"join","place":3}]}"#,
        &[],
    ),
];

const RESTARTS_REPORT: &[Section] = &[
    (
        252,
        r#"# restart # id # view #
"#,
        &[
            (1, 1, 1, MANY),
            (2, 1, 1, MANY),
            (3, 1, 1, MANY),
            (1, 1, 1, MANY),
        ],
    ),
    (
        1,
        r#"253 restart 254 too many identities
254 join 3 too many identities
final view 252
member 0 place 0 view 0
n - known - marks -
member 1 place 1 view 0
n - known - marks -
member 254 place 2 view 252
n - known - marks -
"#,
        &[],
    ),
];

#[test]
fn identities_are_given_once(rt: HostRuntime) -> Result<(), Fail> {
    compare_built(&rt, rt.alloc(), RESTARTS, RESTARTS_REPORT)
}
