//! What is read of the clients of a script, and which rule is told first.

use crate::scripts::{ask_line, check_told, fault_told, parts, with_steps};
use script_reading::{Client, Clients, Repeated, RunStep, Script, ScriptError, read_script};
use std::alloc::Global;
use std::test::Fail;

// What is said of a script with this step, whether it may have clients or not.
const REFUSED: &str = r#"6: {"do":"threads"}
6: {"do":"threads","clients":[],"at":0}
6: {"do":"threads","clients":[[{"do":"flush","at":0}]],"times":1}
13: {"do":"threads","clients":[]}
13: {"do":"threads","clients":{}}
13: {"do":"threads","clients":null}
13: {"do":"threads","clients":[[]]}
13: {"do":"threads","clients":[{"do":"flush","at":0}]}
13: {"do":"threads","clients":[[7]]}
13: {"do":"threads","clients":[[{}]]}
13: {"do":"threads","clients":[[{"do":7,"at":0}]]}
13: {"do":"threads","clients":[[{"do":"round"}]]}
13: {"do":"threads","clients":[[{"do":"deliver","from":0,"to":1}]]}
13: {"do":"threads","clients":[[{"do":"lose","from":0,"to":1}]]}
13: {"do":"threads","clients":[[{"do":"timeout","at":0,"op":0}]]}
13: {"do":"threads","clients":[[{"do":"remove","id":0}]]}
13: {"do":"threads","clients":[[{"do":"join","place":0}]]}
13: {"do":"threads","clients":[[{"do":"restart","id":0}]]}
13: {"do":"threads","clients":[[{"do":"settle"}]]}
13: {"do":"threads","clients":[[{"do":"threads","clients":[[{"do":"flush","at":0}]]}]]}
13: {"do":"threads","clients":[[{"do":"update","op":"set","at":0,"key":"n"}]]}
13: {"do":"threads","clients":[[{"do":"flush"}]]}
13: {"do":"threads","clients":[[{"do":"flush","at":0,"to":1}]]}
13: {"do":"threads","clients":[[{"do":"flush","at":255}]]}
13: {"do":"threads","clients":[[{"do":"gossip","at":0,"to":255}]]}
13: {"do":"threads","clients":[[{"do":"install","at":0,"view":4294967296}]]}
13: {"do":"threads","clients":[[{"do":"get","at":0,"key":"N"}]]}
13: {"do":"threads","clients":[[{"do":"update","op":"add","at":0,"key":"n","element":7}]]}
13: {"do":"threads","clients":[[{"do":"update","op":"increment","at":0,"key":"n","by":0}]]}
13: {"do":"threads","clients":[[{"do":"update","op":"add","at":0,"key":"n","element":"0123456789abcdef0123456789abcdef0123456789abcdef0123456789abcdefx"}]]}
13: {"do":"threads","clients":[[{"do":"get","at":0,"key":"n","level":"most"}]]}
13: {"do":"threads","clients":[[{"do":"flush","at":0,"times":0}]]}
13: {"do":"threads","clients":[[{"do":"flush","at":0,"times":1025}]]}
13: {"do":"threads","clients":[[{"do":"flush","at":0,"times":4294967297}]]}
13: {"do":"threads","clients":[[{"do":"flush","at":0,"times":1.0}]]}
13: {"do":"threads","clients":[[{"do":"flush","at":0,"times":null}]]}
13: {"do":"threads","clients":[[{"do":"flush","at":0,"times":1024},{"do":"flush","at":0}]]}
13: {"do":"threads","clients":[[{"do":"flush","at":0}],[{"do":"flush","at":0,"times":512},{"do":"tick","at":0,"times":513}]]}
13: {"do":"threads","clients":[[{"do":"flush","at":0}],[{"do":"flush","at":0}],[{"do":"flush","at":0}],[{"do":"flush","at":0}],[{"do":"flush","at":0}],[{"do":"flush","at":0}],[{"do":"flush","at":0}],[{"do":"flush","at":0}],[{"do":"flush","at":0}]]}"#;

// A command as it is read, before the command.
const COMMANDS: &str =
    r#"update 254 n increment 9223372036854775807 times 1: {"at":254,"by":9223372036854775807,"do":"update","key":"n","op":"increment"}
update 0 n add a majority 2 times 1024: {"at":0,"do":"update","element":"a","key":"n","level":{"majority":2},"op":"add","times":1024}
update 0 n enable times 2: {"at":0,"do":"update","key":"n","op":"enable","times":2}
update 0 n assign a now 7 times 1: {"at":0,"do":"update","key":"n","now":7,"op":"assign","text":"a","times":1}
get 0 n all times 3: {"at":0,"do":"get","key":"n","level":"all","times":3}
get 0 n times 1: {"at":0,"do":"get","key":"n"}
flush 1 times 4: {"at":1,"do":"flush","times":4}
gossip 1 2 times 5: {"at":1,"do":"gossip","times":5,"to":2}
tick 1 times 6: {"at":1,"do":"tick","times":6}
install 1 4294967295 times 7: {"at":1,"do":"install","times":7,"view":4294967295}"#;

/// What is said of a script that was read, or of its fault.
fn outcome_told(alloc: Global, read: Result<Script, ScriptError>) -> Result<String, Fail> {
    match read {
        Ok(_) => Ok(String::from_str(alloc, "read")?),
        Err(fault) => fault_told(alloc, fault),
    }
}

/// That this is said of a script that was read, or of its fault.
fn check_outcome(
    alloc: Global,
    read: Result<Script, ScriptError>,
    want: &str,
    at: &str,
) -> Result<(), Fail> {
    let told = outcome_told(alloc, read)?;
    check_told(alloc, told.as_str(), want, at)
}

fn line(alloc: Global, repeated: &Repeated) -> Result<String, Fail> {
    let command = ask_line(alloc, repeated.command.at, &repeated.command.ask)?;
    let line = format!(in alloc; "{command} times {}", repeated.times)?;
    Ok(line)
}

/// A script whose second step is this one.
fn with_second(alloc: Global, step: &str) -> Result<String, Fail> {
    let steps = format!(in alloc; "{{\"do\":\"round\"}},{step},{{}}")?;
    with_steps(alloc, steps.as_str())
}

/// That a script is refused for what a rule says of its second step.
fn check_rule(
    alloc: Global,
    read: Result<Script, ScriptError>,
    rule: &str,
    step: &str,
) -> Result<(), Fail> {
    let want = format!(in alloc; "step 2 rule {rule}")?;
    check_outcome(alloc, read, want.as_str(), step)
}

/// That a script with this step is refused, and for the same rule where it may have no clients.
fn check_refused(alloc: Global, row: &str) -> Result<(), Fail> {
    let (rule, step) = parts(row)?;
    let text = with_second(alloc, step)?;
    let bytes = text.as_bytes();
    check_rule(
        alloc,
        read_script(alloc, Clients::Allowed, bytes),
        rule,
        step,
    )?;
    check_rule(
        alloc,
        read_script(alloc, Clients::Refused, bytes),
        rule,
        step,
    )
}

#[test]
fn refuses_clients_that_break_a_rule(rt: HostRuntime) -> Result<(), Fail> {
    for row in REFUSED.lines() {
        check_refused(rt.alloc(), row)?;
    }
    Ok(())
}

/// Adds a line of what a client is to do.
fn push_client(alloc: Global, told: &mut String, client: &Client) -> Result<(), Fail> {
    told.push_str("client")?;
    for repeated in client.as_slice() {
        let line = line(alloc, repeated)?;
        write!(told, " {line}")?;
    }
    told.push_str("\n")?;
    Ok(())
}

/// Adds what the clients of a step are to do, a line a client; of another step that it is plain.
fn push_step(alloc: Global, told: &mut String, step: &RunStep) -> Result<(), Fail> {
    let RunStep::Threads { clients } = step else {
        told.push_str("plain\n")?;
        return Ok(());
    };
    for client in clients.as_slice() {
        push_client(alloc, told, client)?;
    }
    Ok(())
}

/// What is said of these steps.
fn all_told(alloc: Global, steps: &[RunStep]) -> Result<String, Fail> {
    let mut told = String::new(alloc);
    for step in steps {
        push_step(alloc, &mut told, step)?;
    }
    Ok(told)
}

/// That this is said of the steps of a script.
fn check_read(alloc: Global, steps: &str, want: &str) -> Result<(), Fail> {
    let text = with_steps(alloc, steps)?;
    let script = read_script(alloc, Clients::Allowed, text.as_bytes())?;
    let told = all_told(alloc, script.steps.as_slice())?;
    check_told(alloc, told.as_str(), want, steps)
}

fn check_command(alloc: Global, row: &str) -> Result<(), Fail> {
    let (want, command) = parts(row)?;
    let step = format!(in alloc; "{{\"do\":\"threads\",\"clients\":[[{command}]]}}")?;
    let want = format!(in alloc; "client {want}\n")?;
    check_read(alloc, step.as_str(), want.as_str())
}

#[test]
fn reads_each_command(rt: HostRuntime) -> Result<(), Fail> {
    for row in COMMANDS.lines() {
        check_command(rt.alloc(), row)?;
    }
    Ok(())
}

#[test]
fn reads_clients_among_plain_steps(rt: HostRuntime) -> Result<(), Fail> {
    let alloc = rt.alloc();
    let steps =
        r#"{"do":"round"},{"do":"threads","clients":[[{"do":"flush","at":0,"times":2},{"do":"tick","at":1}],[{"do":"gossip","at":1,"to":0}]]},{"do":"settle"}"#;
    let want = "plain\nclient flush 0 times 2 tick 1 times 1\nclient gossip 1 0 times 1\nplain\n";
    check_read(alloc, steps, want)?;
    check_outcome(
        alloc,
        read_script(alloc, Clients::Allowed, b"[]"),
        "step 0 rule 1",
        "[]",
    )?;
    check_outcome(
        alloc,
        read_script(alloc, Clients::Allowed, b"["),
        "not json",
        "[",
    )
}
