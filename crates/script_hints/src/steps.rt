//! What is wrong with a step, where the rule that it breaks is known.

use crate::fault::{Bounds, Fault};
use crate::names::Names;
use crate::wanted::Wanted;
use crate::wrong::{Part, Wrong};
use script_reading::{
    Clients, LAST_IDENTITY, LAST_MOMENT, LAST_NUMBER, LAST_PLACE, MOST_ADDED, MOST_NAMED,
};
use serde_json::Value;

/// The most bytes of a key name.
const MOST_KEY_BYTES: usize = 32;

/// The most bytes of an element of a set, or of the text of a register.
const MOST_TEXT_BYTES: usize = 64;

const STEP: Wanted = Wanted::Named(
    "update, get, flush, gossip, deliver, lose, round, tick, timeout, remove, join, restart, install, settle or threads",
);

/// A step of a script whose clients follow keys.
const WATCHED: Wanted = Wanted::Named(
    "update, get, flush, gossip, deliver, lose, round, tick, timeout, remove, join, restart, install, settle, subscribe or unsubscribe",
);

const OPERATION: Wanted = Wanted::Named(
    "increment, decrement, add, remove, enable, assign or delete",
);

const LEVEL: Wanted = Wanted::Named(r#"local, majority, all, {"majority":c} or {"to":n}"#);

const AMOUNT: Wanted = Wanted::Whole {
    low: 1,
    high: MOST_ADDED,
};

const MOMENT: Wanted = Wanted::Whole {
    low: 0,
    high: LAST_MOMENT,
};

const CLIENT: Wanted = Wanted::Whole {
    low: 0,
    high: LAST_NUMBER,
};

/// The numbers of rule 7, each with the greatest that it may be, in the order in which they are read.
const NUMBERS: [(&str, u64); 8] = [
    ("at", LAST_IDENTITY),
    ("from", LAST_IDENTITY),
    ("to", LAST_IDENTITY),
    ("id", LAST_IDENTITY),
    ("place", LAST_PLACE),
    ("index", LAST_NUMBER),
    ("view", LAST_NUMBER),
    ("op", LAST_NUMBER),
];

/// What is wrong with a step that breaks this rule. It may have some more names.
pub(crate) fn step_wrong<'v>(
    clients: Clients,
    rule: u8,
    step: &'v Value,
    more: &[&str],
) -> Option<Wrong<'v>> {
    match rule {
        5 => Some(form_wrong(clients, step)),
        6 => Names::of_step(step)?.wrong_in(step, more),
        7 => number_wrong(step),
        8 => key_name_wrong(step, Part::KeyName),
        9 => Some(Wrong::under(step, text_name(step), Wanted::Text)),
        10 => Some(amount_wrong(step)),
        11 => length_wrong(step),
        12 => level_wrong(step),
        14 => Some(Wrong::Clients),
        15 => Some(Wrong::under(step, "client", CLIENT)),
        _ => None,
    }
}

/// What is wrong with the `do` of a step, or else with the `op` of an update.
fn form_wrong(clients: Clients, step: &Value) -> Wrong<'_> {
    match step.get("do").and_then(Value::as_str) {
        Some("update") => Wrong::under(step, "op", OPERATION),
        Some("subscribe" | "unsubscribe") => Wrong::Followers,
        _ if clients == Clients::Following => Wrong::under(step, "do", WATCHED),
        _ => Wrong::under(step, "do", STEP),
    }
}

/// Which number of a step is out of its range.
fn number_wrong(step: &Value) -> Option<Wrong<'_>> {
    for (name, high) in NUMBERS {
        if is_given_out_of(step, name, 0, high) {
            return Some(Wrong::under(step, name, Wanted::Whole { low: 0, high }));
        }
    }
    None
}

/// Whether a name is given that is no whole number within these bounds.
pub(crate) fn is_given_out_of(object: &Value, name: &str, low: u64, high: u64) -> bool {
    match object.get(name) {
        Some(value) => !value.as_u64().is_some_and(|n| low <= n && n <= high),
        None => false,
    }
}

/// What is wrong with the name of a key.
pub(crate) fn key_name_wrong(object: &Value, part: Part) -> Option<Wrong<'_>> {
    let found = object.get("key")?;
    let Some(name) = found.as_str() else {
        return Some(Wrong::under(object, "key", Wanted::Text));
    };
    let fault = if name.is_empty() || name.len() > MOST_KEY_BYTES {
        Fault::Has {
            count: name.len(),
            of: "bytes",
            bounds: Bounds::From1To(MOST_KEY_BYTES),
        }
    } else {
        Fault::HasCharacters(name)
    };
    Some(Wrong::Part(part, fault))
}

/// The name of the text that an update has.
fn text_name(step: &Value) -> &'static str {
    if step.get("element").is_some() {
        "element"
    } else {
        "text"
    }
}

/// What is wrong with the length of the text that an update has.
fn length_wrong(step: &Value) -> Option<Wrong<'_>> {
    let name = text_name(step);
    let fault = Fault::Has {
        count: step.get(name)?.as_str()?.len(),
        of: "bytes",
        bounds: Bounds::AtMost(MOST_TEXT_BYTES),
    };
    Some(Wrong::Part(Part::Under(name), fault))
}

/// What is wrong with the number that an update has.
fn amount_wrong(step: &Value) -> Wrong<'_> {
    if step.get("by").is_some() {
        Wrong::under(step, "by", AMOUNT)
    } else {
        Wrong::under(step, "now", MOMENT)
    }
}

/// What is wrong with a level.
fn level_wrong(step: &Value) -> Option<Wrong<'_>> {
    let level = step.get("level")?;
    for (name, low) in [("majority", 0), ("to", 1)] {
        if has_only(level, name) {
            let wanted = Wanted::Whole {
                low,
                high: MOST_NAMED,
            };
            let found = level.get(name)?;
            return Some(Wrong::Part(Part::OfLevel(name), Fault::Is { found, wanted }));
        }
    }
    Some(Wrong::under(step, "level", LEVEL))
}

/// Whether the value is an object of this one name.
fn has_only(value: &Value, name: &str) -> bool {
    match value.as_object() {
        Some(object) => object.len() == 1 && object.contains_key(name),
        None => false,
    }
}
