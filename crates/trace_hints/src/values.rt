//! What may stand under the names of a trace.

use script_reading::{LAST_IDENTITY, LAST_MOMENT, MOST_ADDED, is_key_name, kind_named};
use serde_json::Value;

/// The most bytes of an element, or of the text of a register.
const MOST_BYTES: usize = 64;

/// The greatest number of a record.
const LAST_SEQ: u64 = 1 << 62;

/// What has to stand under a name, in words.
pub(crate) fn wanted(name: &str) -> &'static str {
    match name {
        "keys" => "a list of 1 to 16 keys",
        "lines" => "a list",
        "kind" => "gcounter, pncounter, gset, flag, lwwregister or orset",
        "durable" => "true or false",
        "do" => "record, hold or show",
        "op" => "increment, decrement, add, remove, enable, assign, delete or prune",
        "at" | "id" => "a whole number from 0 to 254",
        "key" => "1 to 32 of a-z, 0-9, _ and -",
        "by" => "a whole number from 1 to 2^63 - 1",
        "now" => "a whole number from 0 to 2^63 - 1",
        "element" | "text" => "a text of at most 64 bytes",
        "known" => "pairs of an identity, rising, and a number from 1",
        _ => "a text",
    }
}

/// Whether the value may stand under a name of a key or of a line, but for what the line does.
pub(crate) fn may_stand(name: &str, value: &Value) -> bool {
    match name {
        "at" | "id" => is_whole(value, 0, LAST_IDENTITY),
        "by" => is_whole(value, 1, MOST_ADDED),
        "now" => is_whole(value, 0, LAST_MOMENT),
        "key" => value.as_str().is_some_and(is_name),
        "kind" => value.as_str().is_some_and(is_kind),
        "element" | "text" => value.as_str().is_some_and(is_short),
        "durable" => value.is_boolean(),
        "known" => are_pairs(value),
        _ => value.is_string(),
    }
}

fn is_whole(value: &Value, low: u64, high: u64) -> bool {
    match value.as_u64() {
        Some(number) => low <= number && number <= high,
        None => false,
    }
}

fn is_name(text: &str) -> bool {
    is_key_name(text)
}

fn is_kind(name: &str) -> bool {
    kind_named(name).is_some()
}

fn is_short(text: &str) -> bool {
    text.len() <= MOST_BYTES
}

/// Whether the value is a list of pairs, whose identities rise.
fn are_pairs(value: &Value) -> bool {
    let Some(pairs) = value.as_array() else {
        return false;
    };
    let mut least = 0u64;
    for pair in pairs {
        match behind(pair, least) {
            Some(next) => least = next,
            None => return false,
        }
    }
    true
}

/// The least identity that may stand behind a pair, whose own may be no less than so much.
fn behind(pair: &Value, least: u64) -> Option<u64> {
    match pair.as_array()?.as_slice() {
        [id, number] if is_whole(id, least, LAST_IDENTITY) && is_whole(number, 1, LAST_SEQ) => {
            id.as_u64()?.checked_add(1)
        }
        _ => None,
    }
}
