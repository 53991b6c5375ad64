ghost use Rattle.std.specs.Prelude.{◌≡◌, [], ◌∷◌, codes, map, IfOk};
ghost use Rattle.std.specs.Str.{IsUtf8};
ghost use Rattle.serde_json.specs.Data.{array, string};
ghost use Rattle.serde_json.specs.View.{view, items_of};
ghost use Rattle.base_vectors.specs.Vectors.{number_at};
ghost use Rattle.base_vectors.specs.Spelling.{pairs_of};
ghost use Rattle.script_generated.specs.Texts.{fields, whole, kind_name, at_said, do_said, key_said, op_said};
ghost use Rattle.trace_lines.specs.Meant.{key_meant, line_meant};
ghost use Rattle.trace_lines.specs.WellFormed.{IsLine};
ghost use Rattle.trace_text.specs.Texts.{key_data, operation_members, pair_data, known_data, line_data};

use base_bytes::Memory;
use base_vectors::{Id, VersionVector};
use model_kinds::{Kind, Op};
use script_reading::ScriptKey;
use serde_json::{Value, json};
use std::alloc::Global;
use trace_lines::{Bytes, TraceAct, TraceLine};

fn kind_name(kind: Kind) -> &'static str
    ensures { result.now ≡ kind_name kind }
{
    match kind {
        Kind::GCounter => "gcounter",
        Kind::PnCounter => "pncounter",
        Kind::GSet => "gset",
        Kind::Flag => "flag",
        Kind::LwwRegister => "lwwregister",
        Kind::OrSet => "orset",
    }
}

/// A declared key as JSON. Only a durable key says whether it is.
pub(crate) fn key_value(alloc: Global, key: &ScriptKey) -> Result<Value, Memory>
    ensures { IfOk result (λ value. view value ≡ key_data (key_meant key.now)) }
{
    let name = key.key.as_str();
    let kind = kind_name(key.kind);
    if key.durable {
        Ok(json!(in alloc; {"durable": true, "key": name, "kind": kind})?)
    } else {
        Ok(json!(in alloc; {"key": name, "kind": kind})?)
    }
}

/// A record that names an amount, as JSON.
fn amount_value(alloc: Global, at: u64, key: &str, op: &str, by: u64) -> Result<Value, Memory>
    ensures { IfOk result (λ value. view value ≡ fields (at_said at ∷ (codes "by", whole by) ∷ do_said (codes "record") ∷ key_said key.now ∷ op_said op.now ∷ [])) }
{
    Ok(json!(in alloc; {"at": at, "by": by, "do": "record", "key": key, "op": op})?)
}

/// A record that names an element, as JSON.
fn element_value(
    alloc: Global,
    at: u64,
    key: &str,
    op: &str,
    element: &str,
) -> Result<Value, Memory>
    ensures { IfOk result (λ value. view value ≡ fields (at_said at ∷ do_said (codes "record") ∷ (codes "element", string element.now) ∷ key_said key.now ∷ op_said op.now ∷ [])) }
{
    Ok(json!(in alloc; {"at": at, "do": "record", "element": element, "key": key, "op": op})?)
}

/// A write of a text as JSON.
fn assign_value(alloc: Global, at: u64, key: &str, now: u64, text: &str) -> Result<Value, Memory>
    ensures { IfOk result (λ value. view value ≡ fields (at_said at ∷ do_said (codes "record") ∷ key_said key.now ∷ (codes "now", whole now) ∷ op_said (codes "assign") ∷ (codes "text", string text.now) ∷ [])) }
{
    Ok(
        json!(in alloc; {"at": at, "do": "record", "key": key, "now": now, "op": "assign", "text": text})?,
    )
}

/// A record that its name says all of, as JSON.
fn plain_value(alloc: Global, at: u64, key: &str, op: &str) -> Result<Value, Memory>
    ensures { IfOk result (λ value. view value ≡ fields (at_said at ∷ do_said (codes "record") ∷ key_said key.now ∷ op_said op.now ∷ [])) }
{
    Ok(json!(in alloc; {"at": at, "do": "record", "key": key, "op": op})?)
}

/// A record of an operation as JSON.
fn operation_value(alloc: Global, at: u64, key: &str, op: &Op) -> Result<Value, Memory>
    ensures { IfOk result (λ value. view value ≡ fields (operation_members at key.now op.now)) }
{
    match op {
        Op::Increment(by) => amount_value(alloc, at, key, "increment", *by),
        Op::Decrement(by) => amount_value(alloc, at, key, "decrement", *by),
        Op::Add(element) => element_value(alloc, at, key, "add", element.as_str()),
        Op::Remove(element) => element_value(alloc, at, key, "remove", element.as_str()),
        Op::Enable => plain_value(alloc, at, key, "enable"),
        Op::Assign { text, now } => assign_value(alloc, at, key, now.number(), text.as_str()),
        Op::Delete => plain_value(alloc, at, key, "delete"),
    }
}

/// A prune as JSON.
fn prune_value(alloc: Global, at: u64, key: &str, id: u64) -> Result<Value, Memory>
    ensures { IfOk result (λ value. view value ≡ fields (at_said at ∷ do_said (codes "record") ∷ (codes "id", whole id) ∷ key_said key.now ∷ op_said (codes "prune") ∷ [])) }
{
    Ok(json!(in alloc; {"at": at, "do": "record", "id": id, "key": key, "op": "prune"})?)
}

/// An identity and a number as JSON.
fn pair_value(alloc: Global, id: u64, count: u64) -> Result<Value, Memory>
    ensures { IfOk result (λ value. view value ≡ pair_data (id, count)) }
{
    Ok(json!(in alloc; [id, count])?)
}

/// How many records of each identity are held, as pairs.
fn known_pairs(alloc: Global, known: &VersionVector) -> Result<Vec<Value>, Memory>
    ensures { IfOk result (λ pairs. map view pairs.items ≡ map pair_data (pairs_of (number_at known.now))) }
{
    let mut pairs = Vec::new(alloc);
    for number in 0..known.limit() {
        if let Some(id) = Id::new(number) {
            let count = known.at(id);
            if count > 0 {
                pairs.push(pair_value(alloc, u64::from(number), count)?)?;
            }
        }
    }
    Ok(pairs)
}

/// A list as JSON.
pub(crate) fn list_value(values: Vec<Value>) -> Value
    ensures { view result ≡ array (items_of (map view values.items)) }
{
    Value::Array(values)
}

/// What is held, as JSON, by its pairs.
fn hold_object(alloc: Global, at: u64, key: &str, known: Value) -> Result<Value, Memory>
    ensures { IfOk result (λ value. view value ≡ fields (at_said at ∷ do_said (codes "hold") ∷ key_said key.now ∷ (codes "known", view known) ∷ [])) }
{
    Ok(json!(in alloc; {"at": at, "do": "hold", "key": key, "known": known})?)
}

/// What is held, as JSON.
fn hold_value(alloc: Global, at: u64, key: &str, known: &VersionVector) -> Result<Value, Memory>
    ensures { IfOk result (λ value. view value ≡ fields (at_said at ∷ do_said (codes "hold") ∷ key_said key.now ∷ (codes "known", known_data (number_at known.now)) ∷ [])) }
{
    hold_object(alloc, at, key, list_value(known_pairs(alloc, known)?))
}

/// What is shown, as JSON.
fn show_value(alloc: Global, at: u64, key: &str, text: &Bytes) -> Result<Value, Memory>
    requires { IsUtf8 text.now }
    ensures { IfOk result (λ value. view value ≡ fields (at_said at ∷ do_said (codes "show") ∷ key_said key.now ∷ (codes "value", string text.now) ∷ [])) }
{
    let value = String::from_utf8_lossy(alloc, text.as_slice())?;
    Ok(json!(in alloc; {"at": at, "do": "show", "key": key, "value": value})?)
}

/// A line as JSON.
pub(crate) fn line_value(alloc: Global, line: &TraceLine) -> Result<Value, Memory>
    requires { IsLine line.now }
    ensures { IfOk result (λ value. view value ≡ line_data (line_meant line.now)) }
{
    let at = u64::from(line.at.number());
    let key = line.key.as_str();
    match &line.act {
        TraceAct::Record(op) => operation_value(alloc, at, key, op),
        TraceAct::Prune(removed) => prune_value(alloc, at, key, u64::from(removed.number())),
        TraceAct::Hold(known) => hold_value(alloc, at, key, known),
        TraceAct::Show(text) => show_value(alloc, at, key, text),
    }
}
