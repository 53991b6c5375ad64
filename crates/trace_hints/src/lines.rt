//! What is wrong with a line of a trace.

use crate::form::{Form, is_not};
use crate::wrong::Wrong;
use serde_json::Value;

/// What is wrong with a line, if anything is.
pub(crate) fn line_wrong(line: &Value) -> Option<Wrong<'_>> {
    if !line.is_object() {
        return Some(Wrong::NoObject(line));
    }
    match form_of(line) {
        Ok(form) => form.wrong(line),
        Err(name) => Some(unnamed(line, name)),
    }
}

/// The form of a line, or the name under which nothing stands that says it.
fn form_of(line: &Value) -> Result<Form, &'static str> {
    match line.get("do").and_then(Value::as_str) {
        Some("record") => record_form(line).ok_or("op"),
        Some("hold") => Ok(Form::new("a hold", &["do", "at", "key", "known"])),
        Some("show") => Ok(Form::new("a show", &["do", "at", "key", "value"])),
        _ => Err("do"),
    }
}

/// The form of a record, by its operation.
fn record_form(line: &Value) -> Option<Form> {
    match line.get("op")?.as_str()? {
        "increment" | "decrement" => Some(Form::new(
            "a record of a counter",
            &["do", "at", "key", "op", "by"],
        )),
        "add" | "remove" => Some(Form::new(
            "a record of a set",
            &["do", "at", "key", "op", "element"],
        )),
        "assign" => Some(Form::new(
            "a record of a register",
            &["do", "at", "key", "op", "text", "now"],
        )),
        "enable" | "delete" => Some(Form::new(
            r#"a record with "enable" or "delete""#,
            &["do", "at", "key", "op"],
        )),
        "prune" => Some(Form::new("a record of a prune", &["do", "at", "key", "op", "id"])),
        _ => None,
    }
}

/// Nothing that says the form of a line stands under the name.
fn unnamed<'v>(line: &'v Value, name: &'static str) -> Wrong<'v> {
    match line.get(name) {
        Some(found) => is_not(name, found),
        None => Wrong::Lacks(name),
    }
}
