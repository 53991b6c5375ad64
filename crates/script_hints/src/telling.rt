ghost use Rattle.std.specs.Prelude.{IsSome};
ghost use Rattle.script_hints.specs.Refused.{IsOfBytes, IsRefused};

use crate::broken::{Broken, Rules};
use crate::clients::clients_wrong;
use crate::place::Place;
use crate::script::script_wrong;
use crate::slips::first_slip;
use crate::stands::Stands;
use crate::steps::step_wrong;
use script_reading::{Clients, ScriptError, read_script};
use serde_json::Value;
use std::alloc::Global;

/// Where the bytes are no JSON text, or where they break a rule of scripts and by what: one line, without its end.
///
/// There is no hint where the bytes spell a script, and none where memory was refused.
#[tactic(auto, using(crate::proofs::Told::refused))]
pub fn hint(alloc: Global, clients: Clients, bytes: &[u8]) -> Option<String>
    ensures { IsSome result → IsRefused clients bytes.now }
{
    match read_script(alloc, clients, bytes) {
        Ok(_) => None,
        Err(error) => told(alloc, clients, bytes, error),
    }
}

/// The first step of a script that is likely a slip of the pen: it names a key that is not declared, a member that has not been
/// there, an operation of another kind, or one member twice. One line, without its end.
///
/// The bytes are those of a script. There is no line where it has no such step, and none where memory was refused.
pub fn slip(alloc: Global, bytes: &[u8]) -> Option<String> {
    let script = Value::from_slice(alloc, bytes).ok()?;
    let slip = first_slip(&script)?;
    format!(in alloc; "played, but look at {slip}").ok()
}

/// What is told of bytes that were refused so.
fn told(alloc: Global, clients: Clients, bytes: &[u8], error: ScriptError) -> Option<String>
    ensures { IsSome result → IsOfBytes error }
{
    match error {
        ScriptError::NotJson => not_json(alloc, bytes),
        ScriptError::NotAScript { step, rule } => not_a_script(alloc, clients, bytes, step, rule),
        ScriptError::Memory => None,
    }
}

/// Why the bytes are no JSON text, in the words of its reader.
fn not_json(alloc: Global, bytes: &[u8]) -> Option<String> {
    match Value::from_slice(alloc, bytes) {
        Err(error) if !error.is_memory() => {
            let stands = Stands::at(bytes, &error);
            format!(in alloc; "not json: {error}, {stands}").ok()
        }
        _ => None,
    }
}

/// Where the JSON text breaks the rule, and by what.
fn not_a_script(
    alloc: Global,
    clients: Clients,
    bytes: &[u8],
    step: u32,
    rule: u8,
) -> Option<String> {
    let script = Value::from_slice(alloc, bytes).ok()?;
    let broken = broken(clients, &script, step, rule)?;
    format!(in alloc; "not a script: {broken}").ok()
}

/// Where a script breaks the rule at the step, and by what.
fn broken(clients: Clients, script: &Value, step: u32, rule: u8) -> Option<Broken<'_>> {
    if step == 0 {
        let (place, wrong) = script_wrong(rule, script)?;
        return Some(Broken {
            place,
            wrong,
            rules: Rules::One(rule),
        });
    }
    let index = step as usize - 1;
    let value = script.get("steps")?.get(index)?;
    if rule == 13 {
        return clients_wrong(step, value);
    }
    Some(Broken {
        place: Place::Step(step),
        wrong: step_wrong(clients, rule, value, &[])?,
        rules: Rules::One(rule),
    })
}
