//! What is read in scripts, and which rule is told first.

use base_bytes::Text;
use base_vectors::Id;
use member_quorum::Level;
use model_kinds::{Moment, Op};
use script_reading::{Ask, Clients, RunStep, Script, ScriptError, ScriptKey, Step, read_script};
use std::alloc::Global;
use std::fmt::Display;
use std::test::Fail;

// What is said of a script, before the script.
const SCRIPTS: &str = r#"not json: {"members":1
not json: {"members":1,"keys":[],"steps":[]} 1
not json: {"members":1e999,"keys":[],"steps":[]}
step 0 rule 1: []
step 0 rule 1: {"members":1,"keys":[]}
step 0 rule 1: {"members":9,"keys":[],"steps":[],"x":0}
step 0 rule 2: {"members":0,"keys":[],"steps":[]}
step 0 rule 2: {"members":9,"keys":[],"steps":[]}
step 0 rule 2: {"members":1.0,"keys":[],"steps":[]}
step 0 rule 3: {"members":1,"keys":[],"steps":7}
step 0 rule 3: {"members":1,"keys":[{"key":"","kind":"gcounter"}],"steps":[]}
step 0 rule 3: {"members":1,"keys":[{"key":"A","kind":"gcounter"}],"steps":[]}
step 0 rule 3: {"members":1,"keys":[{"key":"a","kind":"counter"}],"steps":[]}
step 0 rule 3: {"members":1,"keys":[{"key":"a","kind":"GSet"}],"steps":[]}
step 0 rule 3: {"members":1,"keys":[{"key":"a","kind":"gcounter","durable":null}],"steps":[]}
step 0 rule 3: {"members":1,"keys":[{"key":"a","kind":"gcounter","durable":"true"}],"steps":[]}
step 0 rule 3: {"members":1,"keys":[{"key":"a","kind":"gcounter","stored":true}],"steps":[]}
step 0 rule 3: {"members":1,"keys":[{"key":"a","kind":"gcounter"},{"key":"a","kind":"gcounter"}],"steps":[]}
step 0 rule 4: {"members":1,"keys":[{"key":"a","kind":"gcounter"}],"steps":{}}
step 0 rule 4: {"members":1,"keys":[{"key":"a","kind":"gcounter"}],"steps":[{},7]}
1 2 0: {"members":1,"keys":[{"key":"a-b_9","kind":"gcounter"},{"key":"b","kind":"pncounter"}],"steps":[]}
3 4 0: {"members":3,"keys":[{"key":"a","kind":"gset"},{"key":"b","kind":"flag"},{"key":"c","kind":"lwwregister"},{"key":"d","kind":"orset"}],"steps":[]}
8 1 0: {"members":9,"members":8,"keys":[{"key":"a","kind":"gcounter"}],"steps":[]}"#;

// What is said of a script with these steps, before the steps.
const STEPS: &str = r#"step 1 rule 5: {}
step 1 rule 5: {"do":7}
step 1 rule 5: {"do":"settled"}
step 1 rule 5: {"do":"update","at":255}
step 1 rule 5: {"do":"update","op":"set"}
step 1 rule 5: {"do":"update","op":["add"],"element":7}
step 1 rule 5: {"do":"update","op":"set","level":null}
step 1 rule 5: {"do":"thread","clients":[]}
step 2 rule 6: {"do":"round"},{"do":"round","at":0}
step 1 rule 6: {"do":"get","at":255}
step 1 rule 6: {"do":"get","at":255,"level":null}
step 1 rule 6: {"do":"flush","at":0,"level":"local"}
step 1 rule 6: {"do":"timeout","at":255}
step 1 rule 6: {"do":"timeout","op":0}
step 1 rule 6: {"do":"timeout","at":0,"op":0,"key":"n"}
step 1 rule 6: {"do":"gossip","at":0}
step 1 rule 6: {"do":"lose","from":0,"to":1,"index":0}
step 1 rule 6: {"do":"tick","at":255,"to":0}
step 1 rule 6: {"do":"remove","at":0}
step 1 rule 6: {"do":"join","place":8,"id":0}
step 1 rule 6: {"do":"restart","place":0}
step 1 rule 6: {"do":"install","at":255}
step 1 rule 6: {"do":"settle","at":0}
step 1 rule 6: {"do":"update","op":"enable","at":0,"key":"n","by":1}
step 1 rule 6: {"do":"update","op":"delete","at":0,"key":"n","element":"a"}
step 1 rule 6: {"do":"update","op":"decrement","at":0,"key":"n","element":"a"}
step 1 rule 6: {"do":"update","op":"assign","at":255,"key":"n","text":7}
step 1 rule 6: {"do":"update","op":"add","at":0,"key":"n","element":"a","levels":"all"}
step 1 rule 7: {"do":"get","at":255,"key":""},{}
step 1 rule 7: {"do":"flush","at":-1}
step 1 rule 7: {"do":"flush","at":1.0}
step 1 rule 7: {"do":"flush","at":1e0}
step 1 rule 7: {"do":"deliver","from":0,"to":1,"index":null}
step 1 rule 7: {"do":"deliver","from":0,"to":1,"index":4294967296}
step 1 rule 7: {"do":"deliver","from":255,"to":1}
step 1 rule 7: {"do":"lose","from":0,"to":255}
step 1 rule 7: {"do":"gossip","at":0,"to":255}
step 1 rule 7: {"do":"tick","at":255}
step 1 rule 7: {"do":"remove","id":255}
step 1 rule 7: {"do":"join","place":8}
step 1 rule 7: {"do":"restart","id":null}
step 1 rule 7: {"do":"install","at":255,"view":0}
step 1 rule 7: {"do":"install","at":0,"view":4294967296}
step 1 rule 7: {"do":"update","op":"enable","at":255,"key":"n","level":null}
step 1 rule 7: {"do":"timeout","at":255,"op":0}
step 1 rule 7: {"do":"timeout","at":0,"op":4294967296}
step 1 rule 7: {"do":"timeout","at":0,"op":null}
step 1 rule 7: {"do":"timeout","at":0,"op":-1}
step 1 rule 7: {"do":"timeout","at":0,"op":1.0}
step 1 rule 8: {"do":"get","at":0,"key":"N"}
step 1 rule 8: {"do":"get","at":0,"key":"N","level":null}
step 1 rule 8: {"do":"get","at":0,"key":"abcdefghijklmnopqrstuvwxyz0123456"}
step 1 rule 8: {"do":"update","op":"increment","at":0,"key":"","by":0}
step 1 rule 8: {"do":"update","op":"remove","at":0,"key":"","element":7}
step 1 rule 9: {"do":"update","op":"add","at":0,"key":"n","element":7}
step 1 rule 9: {"do":"update","op":"remove","at":0,"key":"n","element":null}
step 1 rule 9: {"do":"update","op":"assign","at":0,"key":"n","text":{},"now":-1}
step 1 rule 9: {"do":"update","op":"add","at":0,"key":"n","element":7,"level":7}
step 1 rule 10: {"do":"update","op":"increment","at":0,"key":"n","by":0}
step 1 rule 10: {"do":"update","op":"increment","at":0,"key":"n","by":0,"level":null}
step 1 rule 10: {"do":"update","op":"decrement","at":0,"key":"n","by":0}
step 1 rule 10: {"do":"update","op":"increment","at":0,"key":"n","by":9223372036854775808}
step 1 rule 10: {"do":"update","op":"increment","at":0,"key":"n","by":99999999999999999999}
step 1 rule 10: {"do":"update","op":"assign","at":0,"key":"n","text":"0123456789abcdef0123456789abcdef0123456789abcdef0123456789abcdefx","now":9223372036854775808}
step 1 rule 10: {"do":"update","op":"assign","at":0,"key":"n","text":"a","now":-1}
step 1 rule 11: {"do":"update","op":"assign","at":0,"key":"n","text":"0123456789abcdef0123456789abcdef0123456789abcdef0123456789abcdefx","now":0}
step 1 rule 11: {"do":"update","op":"add","at":0,"key":"n","element":"0123456789abcdef0123456789abcdef0123456789abcdef0123456789abcdefx"}
step 1 rule 11: {"do":"update","op":"remove","at":0,"key":"n","element":"0123456789abcdef0123456789abcdef0123456789abcdef0123456789abcdefx"}
step 1 rule 11: {"do":"update","op":"remove","at":0,"key":"n","element":"ééééééééééééééééééééééééééééééééé"}
step 1 rule 11: {"do":"update","op":"add","at":0,"key":"n","element":"0123456789abcdef0123456789abcdef0123456789abcdef0123456789abcdefx","level":null}
step 1 rule 12: {"do":"get","at":0,"key":"n","level":null}
step 1 rule 12: {"do":"get","at":0,"key":"n","level":""}
step 1 rule 12: {"do":"get","at":0,"key":"n","level":"All"}
step 1 rule 12: {"do":"get","at":0,"key":"n","level":"to"}
step 1 rule 12: {"do":"get","at":0,"key":"n","level":true}
step 1 rule 12: {"do":"get","at":0,"key":"n","level":2}
step 1 rule 12: {"do":"get","at":0,"key":"n","level":["all"]}
step 1 rule 12: {"do":"get","at":0,"key":"n","level":{}}
step 1 rule 12: {"do":"get","at":0,"key":"n","level":{"all":1}}
step 1 rule 12: {"do":"get","at":0,"key":"n","level":{"to":0}}
step 1 rule 12: {"do":"get","at":0,"key":"n","level":{"to":65}}
step 1 rule 12: {"do":"get","at":0,"key":"n","level":{"to":257}}
step 1 rule 12: {"do":"get","at":0,"key":"n","level":{"to":-1}}
step 1 rule 12: {"do":"get","at":0,"key":"n","level":{"to":1.0}}
step 1 rule 12: {"do":"get","at":0,"key":"n","level":{"to":"1"}}
step 1 rule 12: {"do":"get","at":0,"key":"n","level":{"majority":65}}
step 1 rule 12: {"do":"get","at":0,"key":"n","level":{"majority":256}}
step 1 rule 12: {"do":"get","at":0,"key":"n","level":{"majority":null}}
step 1 rule 12: {"do":"get","at":0,"key":"n","level":{"majority":1,"to":1}}
step 1 rule 12: {"do":"update","op":"increment","at":0,"key":"n","by":1,"level":null}
step 1 rule 12: {"do":"update","op":"add","at":0,"key":"n","element":"a","level":{"majority":1,"cap":1}}
step 1 rule 12: {"do":"update","op":"enable","at":0,"key":"n","level":0}
step 1 rule 12: {"do":"update","op":"assign","at":0,"key":"n","text":"a","now":0,"level":{"to":0}}
step 1 rule 14: {"do":"threads","clients":[[{"do":"flush","at":0}]]}
step 2 rule 14: {"do":"round"},{"do":"threads","clients":[[{"do":"get","at":0,"key":"n","times":1024}]]},{}
8 1 1: {"do":"get","at":0,"key":"not-declared"}
8 1 0: "#;

// A step as it is read, before the step.
const FORMS: &str =
    r#"update 254 n increment 9223372036854775807: {"at":254,"by":9223372036854775807,"do":"update","key":"n","op":"increment"}
update 0 n decrement 1: {"at":0,"by":1,"do":"update","key":"n","op":"decrement"}
update 0 n add 0123456789abcdef0123456789abcdef0123456789abcdef0123456789abcdef: {"at":0,"do":"update","element":"0123456789abcdef0123456789abcdef0123456789abcdef0123456789abcdef","key":"n","op":"add"}
update 0 n remove é "x": {"at":0,"do":"update","element":"\u00e9 \"x\"","key":"n","op":"remove"}
update 0 n enable: {"at":0,"do":"update","key":"n","op":"enable"}
update 0 n delete: {"at":0,"do":"update","key":"n","op":"delete"}
update 0 n assign a now 9223372036854775807: {"at":0,"do":"update","key":"n","now":9223372036854775807,"op":"assign","text":"a"}
update 0 n assign  now 0: {"at":0,"do":"update","key":"n","now":0,"op":"assign","text":""}
update 0 n increment 1: {"at":0,"by":1,"do":"update","key":"n","level":"local","op":"increment"}
update 0 n decrement 1 all: {"at":0,"by":1,"do":"update","key":"n","level":"all","op":"decrement"}
update 0 n add a majority 0: {"at":0,"do":"update","element":"a","key":"n","level":"majority","op":"add"}
update 0 n remove a majority 64: {"at":0,"do":"update","element":"a","key":"n","level":{"majority":64},"op":"remove"}
update 0 n enable to 1: {"at":0,"do":"update","key":"n","level":{"to":1},"op":"enable"}
update 0 n assign a now 0 to 64: {"at":0,"do":"update","key":"n","level":{"to":64},"now":0,"op":"assign","text":"a"}
get 0 zz: {"at":0,"do":"get","key":"zz"}
get 0 n: {"at":0,"do":"get","key":"n","level":"local"}
get 0 n all: {"at":0,"do":"get","key":"n","level":"all"}
get 0 n majority 0: {"at":0,"do":"get","key":"n","level":"majority"}
get 0 n majority 0: {"at":0,"do":"get","key":"n","level":{"majority":0}}
get 0 n majority 8: {"at":0,"do":"get","key":"n","level":{"majority":8}}
get 0 n to 8: {"at":0,"do":"get","key":"n","level":{"to":0,"to":8}}
flush 1: {"at":1,"do":"flush"}
gossip 1 2: {"at":1,"do":"gossip","to":2}
deliver 1 2: {"do":"deliver","from":1,"to":2}
deliver 2 1 index 4294967295: {"do":"deliver","from":2,"index":4294967295,"to":1}
lose 1 2: {"do":"lose","from":1,"to":2}
round: {"do":"round"}
tick 1: {"at":1,"do":"tick"}
timeout 254 0: {"at":254,"do":"timeout","op":0}
timeout 0 4294967295: {"at":0,"do":"timeout","op":4294967295}
remove 254: {"do":"remove","id":254}
join 7: {"do":"join","place":7}
restart 0: {"do":"restart","id":0}
install 1 4294967295: {"at":1,"do":"install","view":4294967295}
settle: {"do":"settle"}"#;

// Keys as they are declared, and which of them are durable.
const KEYS: &str = r#"false: {"key":"a","kind":"gcounter"}
false: {"durable":false,"key":"a","kind":"gcounter"}
true: {"durable":true,"key":"a","kind":"gcounter"}
true: {"durable":false,"durable":true,"key":"a","kind":"gcounter"}"#;

/// That this is told, and nothing else.
pub fn check_told(alloc: Global, told: &str, want: &str, at: &str) -> Result<(), Fail> {
    if told == want {
        return Ok(());
    }
    let said = format!(in alloc; "{told}, and not {want}, at {at}")?;
    Err(said.into())
}

/// What is wanted and of what, in a row.
pub fn parts(row: &str) -> Result<(&str, &str), Fail> {
    Ok(row.split_once(": ").ok_or("no row")?)
}

/// What is said of a fault.
pub fn fault_told(alloc: Global, fault: ScriptError) -> Result<String, Fail> {
    let told = match fault {
        ScriptError::NotAScript { step, rule } => format!(in alloc; "step {step} rule {rule}")?,
        ScriptError::NotJson => String::from_str(alloc, "not json")?,
        ScriptError::Memory => String::from_str(alloc, "memory")?,
    };
    Ok(told)
}

/// How many members, keys and steps a script has.
fn sizes_told(alloc: Global, script: &Script) -> Result<String, Fail> {
    let keys = script.keys.len();
    let told = format!(in alloc; "{} {keys} {}", script.members, script.steps.len())?;
    Ok(told)
}

// What is said of a script: its fault, or how many members, keys and steps it has.
fn told(alloc: Global, text: &str) -> Result<String, Fail> {
    match read_script(alloc, Clients::Refused, text.as_bytes()) {
        Ok(script) => sizes_told(alloc, &script),
        Err(fault) => fault_told(alloc, fault),
    }
}

/// A word, and a text or number after it.
fn word_with<T: Display>(alloc: Global, word: &str, what: &T) -> Result<String, Fail> {
    let line = format!(in alloc; "{word} {what}")?;
    Ok(line)
}

/// What is assigned, and when.
fn assign_line(alloc: Global, text: &Text, now: Moment) -> Result<String, Fail> {
    let line = format!(in alloc; "assign {} now {}", text.as_str(), now.number())?;
    Ok(line)
}

fn operation_line(alloc: Global, op: &Op) -> Result<String, Fail> {
    match op {
        Op::Increment(by) => word_with(alloc, "increment", by),
        Op::Decrement(by) => word_with(alloc, "decrement", by),
        Op::Add(element) => word_with(alloc, "add", &element.as_str()),
        Op::Remove(element) => word_with(alloc, "remove", &element.as_str()),
        Op::Enable => word(alloc, "enable"),
        Op::Assign { text, now } => assign_line(alloc, text, *now),
        Op::Delete => word(alloc, "delete"),
    }
}

// A level after a space, and nothing for the local one.
fn level_tail(alloc: Global, level: Level) -> Result<String, Fail> {
    let tail = match level {
        Level::Local => String::new(alloc),
        Level::To(number) => format!(in alloc; " to {number}")?,
        Level::Majority(cap) => format!(in alloc; " majority {cap}")?,
        Level::All => String::from_str(alloc, " all")?,
    };
    Ok(tail)
}

/// A word alone.
fn word(alloc: Global, word: &str) -> Result<String, Fail> {
    let line = String::from_str(alloc, word)?;
    Ok(line)
}

/// An update, and its level if it is not local.
fn update_line(alloc: Global, at: Id, key: &Text, op: &Op, level: Level) -> Result<String, Fail> {
    let op = operation_line(alloc, op)?;
    let level = level_tail(alloc, level)?;
    let line = format!(in alloc; "update {} {} {op}{level}", at.number(), key.as_str())?;
    Ok(line)
}

/// A get, and its level if it is not local.
fn get_line(alloc: Global, at: Id, key: &Text, level: Level) -> Result<String, Fail> {
    let level = level_tail(alloc, level)?;
    let line = format!(in alloc; "get {} {}{level}", at.number(), key.as_str())?;
    Ok(line)
}

/// A word, and an identity after it.
fn word_at(alloc: Global, word: &str, at: Id) -> Result<String, Fail> {
    word_with(alloc, word, &at.number())
}

/// A word, and two identities after it.
fn word_between(alloc: Global, word: &str, from: Id, to: Id) -> Result<String, Fail> {
    let line = format!(in alloc; "{word} {} {}", from.number(), to.number())?;
    Ok(line)
}

/// A word, and after it an identity and a number.
fn word_at_with(alloc: Global, word: &str, at: Id, number: u64) -> Result<String, Fail> {
    let line = format!(in alloc; "{word} {} {number}", at.number())?;
    Ok(line)
}

/// A delivery, and which message if it is said.
fn deliver_line(alloc: Global, from: Id, to: Id, index: Option<u32>) -> Result<String, Fail> {
    let mut line = word_between(alloc, "deliver", from, to)?;
    if let Some(index) = index {
        write!(line, " index {index}")?;
    }
    Ok(line)
}

/// What a member is asked.
pub fn ask_line(alloc: Global, at: Id, ask: &Ask) -> Result<String, Fail> {
    match ask {
        Ask::Update { key, op, level } => update_line(alloc, at, key, op, *level),
        Ask::Get { key, level } => get_line(alloc, at, key, *level),
        Ask::Flush => word_at(alloc, "flush", at),
        Ask::Gossip { to } => word_between(alloc, "gossip", at, *to),
        Ask::Tick => word_at(alloc, "tick", at),
        Ask::Install { view } => word_at_with(alloc, "install", at, u64::from(*view)),
    }
}

fn line(alloc: Global, step: &Step) -> Result<String, Fail> {
    match step {
        Step::Ask { at, ask } => ask_line(alloc, *at, ask),
        Step::Deliver { from, to, index } => deliver_line(alloc, *from, *to, *index),
        Step::Lose { from, to } => word_between(alloc, "lose", *from, *to),
        Step::Round => word(alloc, "round"),
        Step::Timeout { at, op } => word_at_with(alloc, "timeout", *at, *op),
        Step::Remove { id } => word_at(alloc, "remove", *id),
        Step::Join { place } => word_with(alloc, "join", place),
        Step::Restart { id } => word_at(alloc, "restart", *id),
        Step::Settle => word(alloc, "settle"),
    }
}

// A script of eight members and one key with these steps.
pub fn with_steps(alloc: Global, steps: &str) -> Result<String, Fail> {
    let text = format!(in alloc;
        "{{\"members\":8,\"keys\":[{{\"key\":\"n\",\"kind\":\"gcounter\"}}],\"steps\":[{steps}]}}"
    )?;
    Ok(text)
}

fn check_script(alloc: Global, row: &str) -> Result<(), Fail> {
    let (want, text) = parts(row)?;
    let told = told(alloc, text)?;
    check_told(alloc, told.as_str(), want, text)
}

fn check_steps(alloc: Global, row: &str) -> Result<(), Fail> {
    let (want, steps) = parts(row)?;
    let text = with_steps(alloc, steps)?;
    let told = told(alloc, text.as_str())?;
    check_told(alloc, told.as_str(), want, steps)
}

#[test]
fn tells_the_first_rule_that_a_script_breaks(rt: HostRuntime) -> Result<(), Fail> {
    for row in SCRIPTS.lines() {
        check_script(rt.alloc(), row)?;
    }
    for row in STEPS.lines() {
        check_steps(rt.alloc(), row)?;
    }
    Ok(())
}

/// The line of the only step.
fn only_line(alloc: Global, steps: &[RunStep]) -> Result<String, Fail> {
    match steps {
        [RunStep::Plain(step)] => line(alloc, step),
        _ => Err("no step".into()),
    }
}

fn check_form(alloc: Global, row: &str) -> Result<(), Fail> {
    let (want, step) = parts(row)?;
    let text = with_steps(alloc, step)?;
    let script = read_script(alloc, Clients::Refused, text.as_bytes())?;
    let line = only_line(alloc, script.steps.as_slice())?;
    check_told(alloc, line.as_str(), want, row)
}

#[test]
fn reads_each_form(rt: HostRuntime) -> Result<(), Fail> {
    for row in FORMS.lines() {
        check_form(rt.alloc(), row)?;
    }
    Ok(())
}

/// That one key is declared, durable or not as is wanted.
fn check_declared(keys: &[ScriptKey], want: &str) -> Result<(), Fail> {
    match keys {
        [declared] if declared.durable == (want == "true") => Ok(()),
        _ => Err("another key".into()),
    }
}

fn check_key(alloc: Global, row: &str) -> Result<(), Fail> {
    let (want, key) = parts(row)?;
    let text = format!(in alloc; "{{\"members\":1,\"keys\":[{key}],\"steps\":[]}}")?;
    let script = read_script(alloc, Clients::Refused, text.as_bytes())?;
    check_declared(script.keys.as_slice(), want)
}

#[test]
fn reads_which_keys_are_durable(rt: HostRuntime) -> Result<(), Fail> {
    for row in KEYS.lines() {
        check_key(rt.alloc(), row)?;
    }
    Ok(())
}

/// A script of so many rounds, and what is told of it.
fn check_rounds(alloc: Global, count: u32, want: &str) -> Result<(), Fail> {
    let mut steps = String::from_str(alloc, "{\"do\":\"round\"}")?;
    for _ in 1..count {
        steps.push_str(",{\"do\":\"round\"}")?;
    }
    let text = with_steps(alloc, steps.as_str())?;
    let told = told(alloc, text.as_str())?;
    check_told(alloc, told.as_str(), want, "rounds")
}

#[test]
fn bounds_the_number_of_steps(rt: HostRuntime) -> Result<(), Fail> {
    check_rounds(rt.alloc(), 4096, "8 1 4096")?;
    check_rounds(rt.alloc(), 4097, "step 0 rule 4")
}
