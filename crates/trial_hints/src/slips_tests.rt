//! Slips of scripts that break no rule.

use script_hints::slip;
use std::test::Fail;

// What stands before and behind the steps. There are two members, a counter and a set.
const FRONT: &str =
    r#"{"members":2,"keys":[{"key":"n","kind":"pncounter"},{"key":"s","kind":"orset"}],"steps":["#;

// Steps, and behind each line of them what is told.
const ROWS: &str = r#"{"do":"round"},{"do":"get","at":0,"key":"nn"}
2: "key" is "nn", which is not declared
{"do":"update","at":0,"key":"n","op":"increment","by":1},{"do":"update","at":0,"key":"s","op":"decrement","by":1}
2: "op" is "decrement", and the kind of "s" is orset
{"do":"update","at":0,"key":"s","op":"remove","element":"a"},{"do":"update","at":0,"key":"n","op":"remove","element":"a"}
2: "op" is "remove", and the kind of "n" is pncounter
{"do":"update","at":0,"key":"n","op":"enable"}
1: "op" is "enable", and the kind of "n" is pncounter
{"do":"update","at":0,"key":"n","op":"assign","text":"a","now":0}
1: "op" is "assign", and the kind of "n" is pncounter
{"do":"flush","at":2}
1: "at" is 2, and the last member so far is 1
{"do":"join","place":2},{"do":"flush","at":2},{"do":"restart","id":0},{"do":"restart","id":3},{"do":"lose","from":5,"to":0}
5: "from" is 5, and the last member so far is 4
{"do":"deliver","from":0,"to":2}
1: "to" is 2, and the last member so far is 1
{"do":"remove","id":1},{"do":"timeout","at":1,"op":7},{"do":"remove","id":9}
3: "id" is 9, and the last member so far is 1
{"do":"gossip","at":0,"to":1},{"do":"gossip","at":1,"to":1}
2: "to" is 1, which is the sender
{"do":"lose","from":0,"to":0}
1: "to" is 0, which is the sender
{"do":"threads","clients":[[{"do":"flush","at":0}],[{"do":"tick","at":1},{"do":"get","at":1,"key":"m"}]]}
1, client 1, command 2: "key" is "m", which is not declared"#;

// No slip: what a member refuses by what became of it and of its messages, a view that is not there, and a delete, which
// every kind of key may have.
const NONE: &str =
    r#"{"do":"remove","id":1},{"do":"flush","at":1},{"do":"deliver","from":0,"to":1},{"do":"install","at":0,"view":9},{"do":"update","at":0,"key":"n","op":"delete"},{"do":"update","at":0,"key":"s","op":"delete"}"#;

#[test]
fn tells_of_slips(rt: HostRuntime) -> Result<(), Fail> {
    let alloc = rt.alloc();
    let mut lines = ROWS.lines();
    while let Some(steps) = lines.next() {
        let told = lines.next().ok_or("steps without a slip")?;
        let script = format!(in alloc; "{FRONT}{steps}]}}")?;
        let told = format!(in alloc; "played, but look at step {told}")?;
        let slip = slip(alloc, script.as_bytes()).ok_or("no slip")?;
        assert_eq!(&rt; slip.as_str(), told.as_str());
    }
    Ok(())
}

#[test]
fn tells_of_no_slip(rt: HostRuntime) -> Result<(), Fail> {
    let alloc = rt.alloc();
    let script = format!(in alloc; "{FRONT}{NONE}]}}")?;
    assert!(&rt; slip(alloc, script.as_bytes()).is_none());
    Ok(())
}
