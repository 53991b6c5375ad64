//! What is wrong with a trace but for its lines.

use crate::form::{Form, is_not};
use crate::wrong::Wrong;
use script_reading::MOST_KEYS;
use serde_json::Value;

const KEY: Form = Form {
    called: "a key",
    needed: &["key", "kind"],
    optional: "durable",
};

/// What is wrong with the object, with which of its keys if with one, counted from 1, or with its lines that are no list.
pub(crate) fn trace_wrong(trace: &Value) -> Option<(Option<usize>, Wrong<'_>)> {
    let form = Form::new("a trace", &["keys", "lines"]);
    if let Some(wrong) = form.names_wrong(trace) {
        return Some((None, wrong));
    }
    let found = trace.get("keys")?;
    let keys = found.as_array().map_or(&[][..], |keys| keys.as_slice());
    if keys.is_empty() || keys.len() > MOST_KEYS {
        return Some((None, is_not("keys", found)));
    }
    if let Some((key, wrong)) = first_wrong(keys) {
        return Some((Some(key), wrong));
    }
    let lines = trace.get("lines")?;
    if lines.is_array() {
        None
    } else {
        Some((None, is_not("lines", lines)))
    }
}

/// The first key that is wrong, and how.
fn first_wrong(keys: &[Value]) -> Option<(usize, Wrong<'_>)> {
    for (index, key) in keys.iter().enumerate() {
        if let Some(wrong) = key_wrong(&keys[..index], key) {
            return Some((index.saturating_add(1), wrong));
        }
    }
    None
}

/// What is wrong with a key behind these, if anything is.
fn key_wrong<'v>(before: &[Value], key: &'v Value) -> Option<Wrong<'v>> {
    if let Some(wrong) = KEY.wrong(key) {
        return Some(wrong);
    }
    let name = name_of(key)?;
    if is_declared(before, name) {
        Some(Wrong::Again(name))
    } else {
        None
    }
}

/// Whether one of the keys has the name.
pub(crate) fn is_declared(keys: &[Value], name: &str) -> bool {
    keys.iter().any(|key| name_of(key) == Some(name))
}

/// The name of a key, if it is a text.
fn name_of(key: &Value) -> Option<&str> {
    key.get("key").and_then(Value::as_str)
}
