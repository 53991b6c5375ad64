ghost use Rattle.std.specs.Prelude.{IsSome};
ghost use Rattle.trace_hints.specs.Refused.{IsRefused};

use crate::keys::trace_wrong;
use crate::lines::line_wrong;
use crate::rules::rule_words;
use serde_json::Value;
use std::alloc::Global;
use trace_judged::{Judgement, judged};

/// What has not its form in a text that is no trace, or which line of a trace breaks a rule and how: one line, without its end.
///
/// There is no hint where the bytes are no JSON text or spell a lawful trace, and none where memory was refused.
pub fn hint(alloc: Global, bytes: &[u8]) -> Option<String>
    ensures { IsSome result → IsRefused bytes.now }
{
    match judged(alloc, bytes) {
        Ok(Judgement::NotATrace { line }) => not_a_trace(alloc, bytes, line),
        Ok(Judgement::Broken { line, rule }) => broken(alloc, bytes, line, rule),
        _ => None,
    }
}

/// What has not its form in bytes that are no trace by this line.
fn not_a_trace(alloc: Global, bytes: &[u8], line: u64) -> Option<String> {
    let trace = Value::from_slice(alloc, bytes).ok()?;
    if line == 0 {
        return not_whole(alloc, &trace);
    }
    let wrong = line_wrong(line_at(&trace, line)?)?;
    format!(in alloc; "not a trace: line {line}: {wrong}").ok()
}

/// What has not its form in a text that is no trace, whatever its lines are.
fn not_whole(alloc: Global, trace: &Value) -> Option<String> {
    match trace_wrong(trace)? {
        (Some(key), wrong) => format!(in alloc; "not a trace: key {key}: {wrong}").ok(),
        (None, wrong) => format!(in alloc; "not a trace: {wrong}").ok(),
    }
}

/// How this line of a trace breaks the rule.
fn broken(alloc: Global, bytes: &[u8], number: u64, rule: u8) -> Option<String> {
    let trace = Value::from_slice(alloc, bytes).ok()?;
    let line = line_at(&trace, number)?;
    let form = line.get("do")?.as_str()?;
    let key = line.get("key")?.as_str()?;
    let at = line.get("at")?.as_u64()?;
    let words = rule_words(&trace, line, rule);
    format!(in alloc; "broken: line {number}, {form} of {key} at {at}: {words} (rule {rule})").ok()
}

/// The line of this number, from 1.
fn line_at(trace: &Value, number: u64) -> Option<&Value> {
    let index = usize::try_from(number.checked_sub(1)?).ok()?;
    trace.get("lines")?.get(index)
}
