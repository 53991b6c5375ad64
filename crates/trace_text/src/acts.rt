ghost use Rattle.std.specs.Prelude.{◌≡◌, IfOk, IfSome};
ghost use Rattle.serde_json.specs.View.{view};
ghost use Rattle.script_reading.specs.WellFormed.{IsAmount, IsShort, IsIdentity, IsOperation};
ghost use Rattle.trace_lines.specs.WellFormed.{IsAct};
ghost use Rattle.trace_text.specs.Fields.{Gives};
ghost use Rattle.trace_text.specs.Acts.{amount_of, element_of, assign_of, plain_of, increment_of, decrement_of, add_of, remove_of, operation_by, prune_of, record_by, record_of, show_of, act_by};

use crate::fault::Fault;
use crate::fields::{has_names, identity, short, text, whole};
use crate::known::hold;
use base_bytes::{Items, Memory, Text};
use base_vectors::Id;
use model_kinds::{Moment, Op};
use script_reading::{LAST_MOMENT, MOST_ADDED};
use serde_json::Value;
use std::alloc::Global;
use trace_lines::TraceAct;

/// What is added or taken.
#[tactic(auto, unfolding(crate::specs::Acts::amount_of))]
fn amount(value: &Value) -> Option<u64>
    ensures value { result ≡ amount_of (view value.now) }
    ensures bounds { IfSome result IsAmount }
{
    if !has_names(value, &["at", "do", "key", "op", "by"], &[]) {
        return None;
    }
    whole(value, "by", 1, MOST_ADDED)
}

/// What is added or removed.
#[tactic(auto, unfolding(crate::specs::Acts::element_of))]
fn element(value: &Value) -> Option<Text>
    ensures value { result ≡ element_of (view value.now) }
    ensures bounds { IfSome result IsShort }
{
    if !has_names(value, &["at", "do", "key", "op", "element"], &[]) {
        return None;
    }
    short(value, "element")
}

fn increment(value: &Value) -> Option<Op>
    ensures value { result ≡ increment_of (view value.now) }
    ensures bounds { IfSome result IsOperation }
{
    Some(Op::Increment(amount(value)?))
}

fn decrement(value: &Value) -> Option<Op>
    ensures value { result ≡ decrement_of (view value.now) }
    ensures bounds { IfSome result IsOperation }
{
    Some(Op::Decrement(amount(value)?))
}

fn add(value: &Value) -> Option<Op>
    ensures value { result ≡ add_of (view value.now) }
    ensures bounds { IfSome result IsOperation }
{
    Some(Op::Add(element(value)?))
}

fn remove(value: &Value) -> Option<Op>
    ensures value { result ≡ remove_of (view value.now) }
    ensures bounds { IfSome result IsOperation }
{
    Some(Op::Remove(element(value)?))
}

/// A write of a text, by a clock.
#[tactic(auto, unfolding(crate::specs::Acts::assign_of))]
fn assign(value: &Value) -> Option<Op>
    ensures value { result ≡ assign_of (view value.now) }
    ensures bounds { IfSome result IsOperation }
{
    if !has_names(value, &["at", "do", "key", "op", "now", "text"], &[]) {
        return None;
    }
    let now = Moment::new(whole(value, "now", 0, LAST_MOMENT)?)?;
    let text = short(value, "text")?;
    Some(Op::Assign { text, now })
}

/// An operation that its name says all of.
#[tactic(auto, unfolding(crate::specs::Acts::plain_of))]
fn plain(value: &Value, op: Op) -> Option<Op>
    ensures value { result ≡ plain_of op (view value.now) }
    ensures same { IfSome result (λ same. same ≡ op) }
{
    if has_names(value, &["at", "do", "key", "op"], &[]) {
        Some(op)
    } else {
        None
    }
}

/// The operation of a name.
fn operation(value: &Value, name: &str) -> Option<Op>
    ensures value { result ≡ operation_by name.now (view value.now) }
    ensures bounds { IfSome result IsOperation }
{
    match name {
        "increment" => increment(value),
        "decrement" => decrement(value),
        "add" => add(value),
        "remove" => remove(value),
        "enable" => plain(value, Op::Enable),
        "assign" => assign(value),
        "delete" => plain(value, Op::Delete),
        _ => None,
    }
}

/// Which identity is pruned.
#[tactic(auto, unfolding(crate::specs::Acts::prune_of))]
fn prune(value: &Value) -> Option<Id>
    ensures value { result ≡ prune_of (view value.now) }
    ensures bounds { IfSome result IsIdentity }
{
    if !has_names(value, &["at", "do", "key", "op", "id"], &[]) {
        return None;
    }
    identity(value, "id")
}

/// A record of an operation or of a prune.
fn record_by(value: &Value, name: &str) -> Option<TraceAct>
    ensures value { result ≡ record_by name.now (view value.now) }
    ensures bounds { IfSome result IsAct }
{
    if name == "prune" {
        return Some(TraceAct::Prune(prune(value)?));
    }
    Some(TraceAct::Record(operation(value, name)?))
}

/// A record.
#[tactic(auto, unfolding(crate::specs::Acts::record_of))]
fn record(value: &Value) -> Option<TraceAct>
    ensures value { result ≡ record_of (view value.now) }
    ensures bounds { IfSome result IsAct }
{
    record_by(value, text(value, "op")?)
}

/// The bytes of a text.
fn bytes_of(alloc: Global, text: &str) -> Result<Items<u8>, Memory>
    ensures { IfOk result (λ bytes. bytes ≡ text.now) }
{
    let mut bytes = Vec::with_capacity(alloc, text.len())?;
    bytes.extend_from_slice(text.as_bytes())?;
    Ok(Items::from_vec(bytes))
}

/// What is shown.
#[tactic(auto, unfolding(crate::specs::Acts::show_of))]
fn show(alloc: Global, value: &Value) -> Result<TraceAct, Fault>
    ensures value { Gives (λ act. act) result (show_of (view value.now)) }
    ensures bounds { IfOk result IsAct }
{
    if !has_names(value, &["at", "do", "key", "value"], &[]) {
        return Err(Fault::Broken);
    }
    let Some(text) = text(value, "value") else {
        return Err(Fault::Broken);
    };
    Ok(TraceAct::Show(bytes_of(alloc, text)?))
}

/// What a line says that its member does.
pub(crate) fn act(alloc: Global, value: &Value, form: &str) -> Result<TraceAct, Fault>
    ensures value { Gives (λ act. act) result (act_by form.now (view value.now)) }
    ensures bounds { IfOk result IsAct }
{
    match form {
        "record" => match record(value) {
            Some(act) => Ok(act),
            None => Err(Fault::Broken),
        },
        "hold" => hold(alloc, value),
        "show" => show(alloc, value),
        _ => Err(Fault::Broken),
    }
}
