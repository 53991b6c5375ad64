//! What is wrong with the keys of a script.

use crate::fault::{Bounds, Fault};
use crate::names::Names;
use crate::place::Place;
use crate::steps::key_name_wrong;
use crate::wanted::Wanted;
use crate::wrong::{Part, Wrong};
use script_reading::{MOST_KEYS, is_key_name, kind_named};
use serde_json::Value;

const KIND: Wanted = Wanted::Named("gcounter, pncounter, gset, flag, lwwregister or orset");

/// What is wrong with the keys of a script, and where.
pub(crate) fn keys_wrong(script: &Value) -> Option<(Place, Wrong<'_>)> {
    let Some(keys) = script.get("keys").and_then(Value::as_array) else {
        return Some((Place::Script, Wrong::under(script, "keys", Wanted::List)));
    };
    let count = keys.len();
    if 1 <= count && count <= MOST_KEYS {
        return first_wrong(keys);
    }
    let fault = Fault::Has {
        count,
        of: "items",
        bounds: Bounds::From1To(MOST_KEYS),
    };
    Some((Place::Script, Wrong::Part(Part::Under("keys"), fault)))
}

/// The first key that is wrong, and how.
fn first_wrong(keys: &[Value]) -> Option<(Place, Wrong<'_>)> {
    for (index, key) in keys.iter().enumerate() {
        if let Some(wrong) = key_wrong(&keys[..index], key) {
            return Some((Place::Key(index.saturating_add(1)), wrong));
        }
    }
    None
}

/// What is wrong with a key behind these, if anything is.
fn key_wrong<'v>(before: &[Value], key: &'v Value) -> Option<Wrong<'v>> {
    if !key.is_object() {
        return Some(Wrong::itself(key, Wanted::Object));
    }
    if let Some(wrong) = Names::of_key().wrong_in(key, &[]) {
        return Some(wrong);
    }
    if let Some(wrong) = name_wrong(before, key) {
        return Some(wrong);
    }
    if !has_kind(key) {
        return Some(Wrong::under(key, "kind", KIND));
    }
    if key.get("durable")?.is_boolean() {
        return None;
    }
    Some(Wrong::under(key, "durable", Wanted::Flag))
}

/// What is wrong with the name of a key behind these, if anything is.
fn name_wrong<'v>(before: &[Value], key: &'v Value) -> Option<Wrong<'v>> {
    match name_of(key) {
        Some(name) if is_key_name(name) => {
            let earlier = before
                .iter()
                .position(|other| name_of(other) == Some(name))?;
            let key = earlier.saturating_add(1);
            Some(Wrong::Part(Part::Name, Fault::IsThatOf { name, key }))
        }
        _ => key_name_wrong(key, Part::Name),
    }
}

/// The name of a key, if it is a text.
fn name_of(key: &Value) -> Option<&str> {
    key.get("key").and_then(Value::as_str)
}

/// Whether the kind of a key is one.
fn has_kind(key: &Value) -> bool {
    match key.get("kind").and_then(Value::as_str) {
        Some(kind) => kind_named(kind).is_some(),
        None => false,
    }
}
