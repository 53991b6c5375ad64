ghost use Rattle.std.specs.Prelude.{◌≡◌, ◌≢◌, [], false, codes, length, AllPairs, IfOk};
ghost use Rattle.std.specs.List.{list_any};
ghost use Rattle.std.specs.Str.{bytes_eq};
ghost use Rattle.serde_json.specs.Find.{get};
ghost use Rattle.serde_json.specs.View.{view, items_view};
ghost use Rattle.script_reading.specs.Fields.{Gives};
ghost use Rattle.script_reading.specs.Reading.{kind_named, kind_of, key_decl, keys_after};

use crate::fault::{Fault, Rule};
use crate::fields::{flag, has_names, key, text};
use crate::script::ScriptKey;
use base_bytes::{Items, Text};
use model_kinds::Kind;
use serde_json::Value;
use std::alloc::Global;

const KEYS: Rule = Rule { step: 0, number: 3 };

/// The kind of a name.
pub fn kind_named(name: &str) -> Option<Kind>
    ensures { result ≡ kind_named name.now }
{
    match name {
        "gcounter" => Some(Kind::GCounter),
        "pncounter" => Some(Kind::PnCounter),
        "gset" => Some(Kind::GSet),
        "flag" => Some(Kind::Flag),
        "lwwregister" => Some(Kind::LwwRegister),
        "orset" => Some(Kind::OrSet),
        _ => None,
    }
}

fn kind(value: &Value) -> Result<Kind, Rule>
    ensures { result ≡ kind_of (get (codes "kind") (view value.now)) }
{
    match kind_named(text(value, "kind", KEYS)?) {
        Some(kind) => Ok(kind),
        None => Err(KEYS),
    }
}

fn is_among(key: &Text, before: &[ScriptKey]) -> bool
    ensures { result ≡ list_any (λ other. bytes_eq other.key key.now) before.now }
{
    before
        .iter()
        .any(|other| other.key.as_str() == key.as_str())
}

#[tactic(auto, unfolding(crate::specs::Reading::key_decl))]
fn one_key(before: &[ScriptKey], value: &Value) -> Result<ScriptKey, Rule>
    ensures value { result ≡ key_decl before.now (view value.now) }
    ensures new { IfOk result (λ k. list_any (λ other. bytes_eq other.key k.key) before.now ≡ false) }
{
    if !has_names(value, &["key", "kind"], &["durable"]) {
        return Err(KEYS);
    }
    let key = key(value, "key", KEYS)?;
    if is_among(&key, before) {
        return Err(KEYS);
    }
    let kind = kind(value)?;
    let durable = flag(value, "durable", KEYS)?;
    Ok(ScriptKey { key, kind, durable })
}

/// The keys of a script.
#[tactic(auto, unfolding(crate::specs::Reading::keys_after))]
pub fn all_keys(alloc: Global, list: &[Value]) -> Result<Items<ScriptKey>, Fault>
    ensures value { Gives (λ k. k) result (keys_after [] (items_view list.now)) }
    ensures count { IfOk result (λ k. length k ≡ length list.now) }
    ensures names { IfOk result (AllPairs (λ a b. a.key ≢ b.key)) }
{
    let mut keys = Items::new(alloc);
    for value in list {
        let key = one_key(keys.as_slice(), value)?;
        keys.push(key)?;
    }
    Ok(keys)
}
