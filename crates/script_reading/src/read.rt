ghost use Rattle.std.specs.Prelude.{◌≡◌, ◌≤◌, length, All, IfOk, IfErr};
ghost use Rattle.serde_json.specs.Find.{get};
ghost use Rattle.serde_json.specs.View.{view, items_view};
ghost use Rattle.script_reading.specs.Fields.{Finds, Gives};
ghost use Rattle.script_reading.specs.Reading.{step_list_of, opening_of, script_of, Reads, Spells, Breaks, HasNoReading};
ghost use Rattle.script_reading.specs.Refusals.{MatchError};
ghost use Rattle.script_reading.specs.WellFormed.{IsOpening, IsAllowed, IsWellFormed};

use crate::clients::Clients;
use crate::fault::{Fault, Rule};
use crate::fields::{are_objects, has_names, list, whole};
use crate::keys::all_keys;
use crate::script::{Script, ScriptKey};
use crate::steps::{MOST_STEPS, all_steps};
use base_bytes::Items;
use serde_json::Value;
use std::alloc::Global;

/// Why no script was read.
#[derive(Clone, Copy, Debug, PartialEq, Eq)]
pub enum ScriptError {
    /// The bytes are no JSON text.
    NotJson,
    /// The first rule that is broken, and at which step, from 1. Step 0 is the script as a whole.
    NotAScript { step: u32, rule: u8 },
    /// Memory was refused.
    Memory,
}

const NAMES: Rule = Rule { step: 0, number: 1 };

const MEMBERS: Rule = Rule { step: 0, number: 2 };

/// The most members that a script begins with.
pub const MOST_MEMBERS: u64 = 8;

const KEYS: Rule = Rule { step: 0, number: 3 };

/// The most keys of a script.
pub const MOST_KEYS: usize = 16;

const STEPS: Rule = Rule { step: 0, number: 4 };

fn step_list<'v>(value: &'v Value) -> Result<&'v [Value], Rule>
    ensures items { Finds (λ list. items_view list.now) result (step_list_of (view value.now)) }
    ensures bound { IfOk result (λ list. length list.now ≤ MOST_STEPS) }
{
    let list = list(value, "steps", 0, MOST_STEPS, STEPS)?;
    if !are_objects(list) {
        return Err(STEPS);
    }
    Ok(list)
}

/// How many members there are, and the keys.
#[tactic(auto, unfolding(crate::specs::Reading::opening_of))]
fn opening(alloc: Global, value: &Value) -> Result<(u8, Items<ScriptKey>), Fault>
    ensures value { Gives (λ o. o) result (opening_of (view value.now)) }
    ensures bounds { IfOk result IsOpening }
{
    if !has_names(value, &["keys", "members", "steps"], &[]) {
        return Err(Fault::Breaks(NAMES));
    }
    let members = whole(value, "members", 1, MOST_MEMBERS, MEMBERS)? as u8;
    let keys = all_keys(alloc, list(value, "keys", 1, MOST_KEYS, KEYS)?)?;
    Ok((members, keys))
}

#[tactic(auto, using(crate::proofs::Openings::script_opens))]
fn script(alloc: Global, clients: Clients, value: &Value) -> Result<Script, Fault>
    ensures value { Gives (λ s. s) result (script_of clients (view value.now)) }
    ensures bounds { IfOk result IsWellFormed }
    ensures allowed { IfOk result (λ script. All (IsAllowed clients) script.steps) }
{
    let (members, keys) = opening(alloc, value)?;
    let steps = all_steps(alloc, clients, step_list(value)?)?;
    Ok(Script {
        members,
        keys,
        steps,
    })
}

/// The fault of a script, as it is told.
impl From<Fault> for ScriptError {
    ghost use Rattle.std.specs.Prelude.{◌≡◌};
    ghost use Rattle.script_reading.specs.Refusals.{error_of};

    ghost from_gives = { λ fault e. e ≡ error_of fault };

    fn from(fault: Fault) -> ScriptError {
        match fault {
            Fault::Breaks(rule) => ScriptError::NotAScript {
                step: rule.step,
                rule: rule.number,
            },
            Fault::Memory => ScriptError::Memory,
        }
    }
}

/// The JSON value that the bytes are a text of.
fn json(alloc: Global, bytes: &[u8]) -> Result<Value, ScriptError>
    ensures value { IfOk result (λ value. Reads bytes.now (view value)) }
    ensures refused { IfErr result (MatchError (HasNoReading bytes.now) (λ rule. ⊥)) }
{
    match Value::from_slice(alloc, bytes) {
        Ok(value) => Ok(value),
        Err(error) if error.is_memory() => Err(ScriptError::Memory),
        Err(_) => Err(ScriptError::NotJson),
    }
}

/// The script that the bytes spell, with steps of clients where these are allowed.
///
/// # Errors
///
/// `NotJson` where the bytes are no JSON text, `NotAScript` with the first rule that they break and its step, and
/// `Memory` where memory was refused.
pub fn read_script(alloc: Global, clients: Clients, bytes: &[u8]) -> Result<Script, ScriptError>
    ensures script { IfOk result (Spells clients bytes.now) }
    ensures bounds { IfOk result IsWellFormed }
    ensures allowed { IfOk result (λ script. All (IsAllowed clients) script.steps) }
    ensures refused { IfErr result (MatchError (HasNoReading bytes.now) (Breaks clients bytes.now)) }
{
    let value = json(alloc, bytes)?;
    Ok(script(alloc, clients, &value)?)
}
