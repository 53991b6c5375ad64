//! What a line does that breaks a rule, in words.

use crate::keys::is_declared;
use serde_json::Value;

/// What is wrong with this line of a trace that breaks the rule.
pub(crate) fn rule_words(trace: &Value, line: &Value, rule: u8) -> &'static str {
    match rule {
        1 => first_rule_words(trace, line),
        2 =>
            "it forgets what the member held, counts a record that no earlier line made, or lacks the past of one that it counts",
        3 =>
            "the member then holds more of a pruned identity than the prune saw, or a second prune of it",
        _ => "the value is not the text of what the held records mean, or the member holds none",
    }
}

fn first_rule_words(trace: &Value, line: &Value) -> &'static str {
    if !has_declared_key(trace, line) {
        "the key is not declared"
    } else if line.get("op").and_then(Value::as_str) == Some("prune") {
        "it prunes the member itself, one of which the member holds no record, or one that it has pruned already"
    } else {
        "the operation is none of the key's kind, or the member holds a delete"
    }
}

/// Whether the key of a line is one of those that the trace declares.
fn has_declared_key(trace: &Value, line: &Value) -> bool {
    let name = line.get("key").and_then(Value::as_str);
    let keys = trace.get("keys").and_then(Value::as_array);
    match (name, keys) {
        (Some(name), Some(keys)) => is_declared(keys, name),
        _ => false,
    }
}
