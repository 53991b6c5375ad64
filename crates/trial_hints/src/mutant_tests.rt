//! Whatever is wrong with one name of a step or of a command, it is told with the rule that is broken.

use crate::rows::{Frame, STEPS};
use script_hints::hint;
use script_reading::{Clients, ScriptError, read_script};
use serde_json::Value;
use std::alloc::Global;
use std::process::Abort;
use std::test::Fail;

// A step of each form that may be a command, with all of its names.
const COMMANDS: [&str; 12] = [
    r#"{"do":"get","at":0,"key":"n","level":"all"}"#,
    r#"{"do":"flush","at":0}"#,
    r#"{"do":"gossip","at":0,"to":0}"#,
    r#"{"do":"tick","at":0}"#,
    r#"{"do":"install","at":0,"view":0}"#,
    r#"{"do":"update","op":"increment","at":0,"key":"n","by":1,"level":{"to":1}}"#,
    r#"{"do":"update","op":"decrement","at":0,"key":"n","by":1,"level":"all"}"#,
    r#"{"do":"update","op":"add","at":0,"key":"n","element":"a","level":"all"}"#,
    r#"{"do":"update","op":"remove","at":0,"key":"n","element":"a","level":"all"}"#,
    r#"{"do":"update","op":"enable","at":0,"key":"n","level":{"majority":1}}"#,
    r#"{"do":"update","op":"assign","at":0,"key":"n","text":"a","now":0,"level":"all"}"#,
    r#"{"do":"update","op":"delete","at":0,"key":"n","level":"all"}"#,
];

// A step of each other form, with all of its names.
const OTHERS: [&str; 9] = [
    r#"{"do":"deliver","from":0,"to":0,"index":0}"#,
    r#"{"do":"lose","from":0,"to":0}"#,
    r#"{"do":"round"}"#,
    r#"{"do":"timeout","at":0,"op":0}"#,
    r#"{"do":"remove","id":0}"#,
    r#"{"do":"join","place":0}"#,
    r#"{"do":"restart","id":0}"#,
    r#"{"do":"settle"}"#,
    r#"{"do":"threads","clients":[[{"do":"flush","at":0,"times":2}]]}"#,
];

// Names of steps and of none.
const NAMES: [&str; 18] = [
    "at", "by", "clients", "do", "element", "from", "id", "index", "key", "level", "now", "op",
    "place", "text", "times", "to", "view", "none",
];

// Values of each kind, at the bounds of numbers and of texts.
const VALUES: [&str; 13] = [
    "null",
    "-1",
    "0",
    "8",
    "255",
    "1025",
    "4294967296",
    "9223372036854775808",
    r#""""#,
    r#""flush""#,
    r#""01234567890123456789012345678901234567890123456789012345678901234""#,
    "[]",
    "{}",
];

// A text is the one command of the one client.
const ONE_COMMAND: Frame = Frame {
    front: r#"{"members":1,"keys":[{"key":"n","kind":"gcounter"}],"steps":[{"do":"threads","clients":[["#,
    back: "]]}]}",
    head: "not a script: step 1",
};

// Checks that a script is refused with a hint that names its rule, or is read and has none.
fn check<R: Abort>(rt: &R, alloc: Global, frame: Frame, step: &Value) -> Result<(), Fail> {
    let Frame { front, back, .. } = frame;
    let script = format!(in alloc; "{front}{step}{back}")?;
    let hint = hint(alloc, Clients::Allowed, script.as_bytes());
    match read_script(alloc, Clients::Allowed, script.as_bytes()) {
        Ok(_) => assert!(rt; hint.is_none(), "{script}"),
        Err(ScriptError::NotAScript { rule, .. }) => {
            let hint = hint.ok_or("no hint")?;
            let rule = format!(in alloc; "(rule {rule}")?;
            assert!(rt; hint.as_str().contains(rule.as_str()), "{script}: {hint}");
        }
        Err(_) => assert!(rt; false, "{script}"),
    }
    Ok(())
}

// Checks a form with a value under a name.
fn check_value<R: Abort>(
    rt: &R,
    alloc: Global,
    frame: Frame,
    form: &str,
    (name, value): (&str, &str),
) -> Result<(), Fail> {
    let mut step = Value::from_str(alloc, form)?;
    let names = step.as_object_mut().ok_or("no object")?;
    names.insert(
        String::from_str(alloc, name)?,
        Value::from_str(alloc, value)?,
    )?;
    check(rt, alloc, frame, &step)
}

// Checks a form without one of its names, and with each value under it. A name that it has not is given once.
fn check_name<R: Abort>(
    rt: &R,
    alloc: Global,
    frame: Frame,
    form: &str,
    name: &str,
) -> Result<(), Fail> {
    let mut step = Value::from_str(alloc, form)?;
    let names = step.as_object_mut().ok_or("no object")?;
    if names.remove(name).is_none() {
        return check_value(rt, alloc, frame, form, (name, "1"));
    }
    check(rt, alloc, frame, &step)?;
    for value in VALUES {
        check_value(rt, alloc, frame, form, (name, value))?;
    }
    Ok(())
}

// Checks these forms.
fn check_forms<R: Abort>(rt: &R, alloc: Global, frame: Frame, forms: &[&str]) -> Result<(), Fail> {
    for form in forms {
        for name in NAMES {
            check_name(rt, alloc, frame, *form, name)?;
        }
    }
    Ok(())
}

#[test]
fn tells_of_each_name_of_a_step(rt: HostRuntime) -> Result<(), Fail> {
    check_forms(&rt, rt.alloc(), STEPS, &COMMANDS)?;
    check_forms(&rt, rt.alloc(), STEPS, &OTHERS)
}

#[test]
fn tells_of_each_name_of_a_command(rt: HostRuntime) -> Result<(), Fail> {
    check_forms(&rt, rt.alloc(), ONE_COMMAND, &COMMANDS)
}
