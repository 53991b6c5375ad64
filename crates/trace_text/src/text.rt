ghost use Rattle.std.specs.Prelude.{◌≡◌, [], ◌∷◌, codes, map, string_bytes, All, IfOk};
ghost use Rattle.serde_json.specs.View.{view};
ghost use Rattle.script_generated.specs.Texts.{fields};
ghost use Rattle.trace_lines.specs.Meant.{key_meant, line_meant, trace_meant};
ghost use Rattle.trace_lines.specs.WellFormed.{IsLine, IsWellFormed};
ghost use Rattle.trace_text.specs.Reading.{Spells};
ghost use Rattle.trace_text.specs.Said.{HasTexts, SaysTexts, AreSayable};
ghost use Rattle.trace_text.specs.Texts as texts;
ghost use Rattle.trace_text.specs.Texts.{key_data, line_data, trace_data};

use crate::written::{key_value, line_value, list_value};
use base_bytes::Memory;
use model_kinds::Op;
use script_reading::ScriptKey;
use serde_json::{Value, json};
use std::alloc::Global;
use trace_lines::{Trace, TraceAct, TraceLine};

fn keys_value(alloc: Global, keys: &[ScriptKey]) -> Result<Vec<Value>, Memory>
    ensures { IfOk result (λ values. map view values.items ≡ map (λ key. key_data (key_meant key)) keys.now) }
{
    let mut values = Vec::new(alloc);
    for key in keys {
        values.push(key_value(alloc, key)?)?;
    }
    Ok(values)
}

fn lines_value(alloc: Global, lines: &[TraceLine]) -> Result<Vec<Value>, Memory>
    requires { All IsLine lines.now }
    ensures { IfOk result (λ values. map view values.items ≡ map (λ line. line_data (line_meant line)) lines.now) }
{
    let mut values = Vec::new(alloc);
    for line in lines {
        values.push(line_value(alloc, line)?)?;
    }
    Ok(values)
}

/// A trace as JSON, by its keys and lines.
fn trace_object(alloc: Global, keys: Value, lines: Value) -> Result<Value, Memory>
    ensures { IfOk result (λ value. view value ≡ fields ((codes "keys", view keys) ∷ (codes "lines", view lines) ∷ [])) }
{
    Ok(json!(in alloc; {"keys": keys, "lines": lines})?)
}

fn trace_value(alloc: Global, trace: &Trace) -> Result<Value, Memory>
    requires { IsWellFormed trace.now }
    ensures { IfOk result (λ value. view value ≡ trace_data (trace_meant trace.now)) }
{
    let keys = list_value(keys_value(alloc, trace.keys.as_slice())?);
    let lines = list_value(lines_value(alloc, trace.lines.as_slice())?);
    trace_object(alloc, keys, lines)
}

/// Called for its contract alone: the texts of an operation are UTF-8.
fn op_texts(op: &Op)
    ensures { HasTexts op.now }
{
    match op {
        Op::Add(element) | Op::Remove(element) => {
            let _text = element.as_str();
        }
        Op::Assign { text, .. } => {
            let _text = text.as_str();
        }
        _ => {}
    }
}

/// Called for its contract alone: the texts of what a line says are UTF-8.
fn act_texts(act: &TraceAct)
    ensures { SaysTexts act.now }
{
    if let TraceAct::Record(op) = act {
        op_texts(op);
    }
}

/// Called for its contract alone: the texts of lines are UTF-8.
fn line_texts(lines: &[TraceLine])
    ensures { AreSayable lines.now }
{
    for line in lines {
        act_texts(&line.act);
    }
}

/// A trace as compact JSON, and a newline.
fn value_text(alloc: Global, trace: &Trace) -> Result<String, Memory>
    requires { IsWellFormed trace.now }
    ensures { IfOk result (λ text. string_bytes text ≡ texts.trace_text (trace_meant trace.now)) }
{
    let mut text = trace_value(alloc, trace)?.to_string(alloc)?;
    text.push_str("\n")?;
    Ok(text)
}

/// The text of a trace: compact JSON with the names of each object in byte order, and a newline. It is read as the trace.
///
/// # Errors
///
/// Memory was refused.
pub fn trace_text(alloc: Global, trace: &Trace) -> Result<String, Memory>
    requires { IsWellFormed trace.now }
    ensures value { IfOk result (λ text. string_bytes text ≡ texts.trace_text (trace_meant trace.now)) }
    ensures reads { IfOk result (λ text. Spells (string_bytes text) trace.now) }
{
    line_texts(trace.lines.as_slice());
    value_text(alloc, trace)
}
