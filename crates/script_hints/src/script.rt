//! What is wrong with a script as a whole, where the rule that it breaks is known.

use crate::fault::{Bounds, Fault};
use crate::keys::keys_wrong;
use crate::names::Names;
use crate::place::Place;
use crate::wanted::Wanted;
use crate::wrong::{Part, Wrong};
use script_reading::{MOST_MEMBERS, MOST_STEPS};
use serde_json::Value;

const MEMBERS: Wanted = Wanted::Whole {
    low: 1,
    high: MOST_MEMBERS,
};

/// What is wrong with a script that breaks this rule, and where.
pub(crate) fn script_wrong(rule: u8, script: &Value) -> Option<(Place, Wrong<'_>)> {
    match rule {
        1 => Some((Place::Script, names_wrong(script)?)),
        2 => Some((Place::Script, Wrong::under(script, "members", MEMBERS))),
        3 => keys_wrong(script),
        4 => steps_wrong(script),
        _ => None,
    }
}

/// What is wrong with the names of a script.
fn names_wrong(script: &Value) -> Option<Wrong<'_>> {
    if script.is_object() {
        Names::of_script().wrong_in(script, &[])
    } else {
        Some(Wrong::itself(script, Wanted::Object))
    }
}

/// What is wrong with the list of steps, and where.
fn steps_wrong(script: &Value) -> Option<(Place, Wrong<'_>)> {
    let Some(steps) = script.get("steps").and_then(Value::as_array) else {
        return Some((Place::Script, Wrong::under(script, "steps", Wanted::List)));
    };
    let count = steps.len();
    if count <= MOST_STEPS {
        return first_wrong(steps);
    }
    let fault = Fault::Has {
        count,
        of: "items",
        bounds: Bounds::AtMost(MOST_STEPS),
    };
    Some((Place::Script, Wrong::Part(Part::Under("steps"), fault)))
}

/// The first step that is no object.
fn first_wrong(steps: &[Value]) -> Option<(Place, Wrong<'_>)> {
    let mut number = 1u32;
    for step in steps {
        if !step.is_object() {
            return Some((Place::Step(number), Wrong::itself(step, Wanted::Object)));
        }
        number = number.saturating_add(1);
    }
    None
}
