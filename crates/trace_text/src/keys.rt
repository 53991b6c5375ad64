ghost use Rattle.std.specs.Prelude.{◌≡◌, ◌≢◌, ◌≤◌, [], true, false, length, codes, All, AllPairs, IfOk, IfSome};
ghost use Rattle.std.specs.List.{list_any};
ghost use Rattle.std.specs.Str.{bytes_eq};
ghost use Rattle.serde_json.specs.View.{view, items_view};
ghost use Rattle.script_reading.specs.Fields.{is_key_name};
ghost use Rattle.trace_text.specs.Fields.{Gives};
ghost use Rattle.trace_text.specs.Reading.{kind_in, key_decl, keys_after, keys_of};

use crate::fault::Fault;
use crate::fields::{array, counted, flag, has_names, key, text};
use base_bytes::{Items, Text};
use model_kinds::Kind;
use script_reading::{MOST_KEYS, ScriptKey, kind_named};
use serde_json::Value;
use std::alloc::Global;

fn kind(value: &Value) -> Option<Kind>
    ensures { result ≡ kind_in (view value.now) }
{
    kind_named(text(value, "kind")?)
}

fn is_among(key: &Text, before: &[ScriptKey]) -> bool
    ensures { result ≡ list_any (λ other. bytes_eq other.key key.now) before.now }
{
    before
        .iter()
        .any(|other| other.key.as_str() == key.as_str())
}

/// A declared key, whose name is not among those before it.
#[tactic(auto, unfolding(crate::specs::Reading::key_decl))]
fn one_key(before: &[ScriptKey], value: &Value) -> Option<ScriptKey>
    ensures value { result ≡ key_decl before.now (view value.now) }
    ensures new { IfSome result (λ k. list_any (λ other. bytes_eq other.key k.key) before.now ≡ false) }
    ensures name { IfSome result (λ k. is_key_name k.key ≡ true) }
{
    if !has_names(value, &["key", "kind"], &["durable"]) {
        return None;
    }
    let key = key(value, "key")?;
    if is_among(&key, before) {
        return None;
    }
    let kind = kind(value)?;
    let durable = flag(value, "durable")?;
    Some(ScriptKey { key, kind, durable })
}

/// The keys of a list.
#[tactic(auto, unfolding(crate::specs::Reading::keys_after))]
fn all_keys(alloc: Global, list: &[Value]) -> Result<Items<ScriptKey>, Fault>
    ensures value { Gives (λ k. k) result (keys_after [] (items_view list.now)) }
    ensures count { IfOk result (λ k. length k ≡ length list.now) }
    ensures names { IfOk result (AllPairs (λ a b. a.key ≢ b.key)) }
    ensures formed { IfOk result (All (λ k. is_key_name k.key ≡ true)) }
{
    let mut keys = Items::new(alloc);
    for value in list {
        let Some(key) = one_key(keys.as_slice(), value) else {
            return Err(Fault::Broken);
        };
        keys.push(key)?;
    }
    Ok(keys)
}

/// The declared keys of a trace.
#[tactic(auto, unfolding(crate::specs::Reading::keys_of))]
pub(crate) fn declared(alloc: Global, value: &Value) -> Result<Items<ScriptKey>, Fault>
    ensures value { Gives (λ k. k) result (keys_of (view value.now)) }
    ensures count { IfOk result (λ k. (1 ≤ length k) × (length k ≤ 16)) }
    ensures names { IfOk result (AllPairs (λ a b. a.key ≢ b.key)) }
    ensures formed { IfOk result (All (λ k. is_key_name k.key ≡ true)) }
{
    if !has_names(value, &["keys", "lines"], &[]) {
        return Err(Fault::Broken);
    }
    let Some(list) = array(value, "keys") else {
        return Err(Fault::Broken);
    };
    let Some(few) = counted(list, 1, MOST_KEYS) else {
        return Err(Fault::Broken);
    };
    all_keys(alloc, few)
}
