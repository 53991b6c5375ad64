ghost use Rattle.std.specs.Prelude.{◌≡◌, ◌≤◌, true, codes, map, length, IfOk, IfSome};
ghost use Rattle.std.specs.List.{list_all, count_by};
ghost use Rattle.serde_json.specs.Find.{get, as_object};
ghost use Rattle.serde_json.specs.View.{view, items_view};
ghost use Rattle.serde_json.specs.Events.{items_len};
ghost use Rattle.script_reading.specs.Fields.{has_names, is_given, is_key_name, name_count};
ghost use Rattle.script_reading.specs.WellFormed.{IsIdentity, IsShort};
ghost use Rattle.trace_text.specs.Fields.{Finds, whole_of, whole_in, identity_in, text_in, flag_of, short_in, key_in, array_in, if_count};

use base_bytes::Text;
use base_vectors::Id;
use script_reading::{LAST_IDENTITY, is_key_name};
use serde_json::Value;

/// The value as a whole number, if it is within the bounds.
pub(crate) fn whole_of(value: &Value, low: u64, high: u64) -> Option<u64>
    ensures value { result ≡ whole_of low high (view value.now) }
    ensures bounds { IfSome result (λ n. (low ≤ n) × (n ≤ high)) }
{
    match value.as_u64() {
        Some(n) if low <= n && n <= high => Some(n),
        _ => None,
    }
}

/// The whole number under a name, if it is within the bounds.
pub(crate) fn whole(value: &Value, name: &str, low: u64, high: u64) -> Option<u64>
    ensures value { result ≡ whole_in name.now low high (view value.now) }
    ensures bounds { IfSome result (λ n. (low ≤ n) × (n ≤ high)) }
{
    whole_of(value.get(name)?, low, high)
}

/// The identity under a name.
pub(crate) fn identity(value: &Value, name: &str) -> Option<Id>
    ensures value { result ≡ identity_in name.now (view value.now) }
    ensures bounds { IfSome result IsIdentity }
{
    Id::new(whole(value, name, 0, LAST_IDENTITY)? as u8)
}

/// The text under a name.
pub(crate) fn text<'v>(value: &'v Value, name: &str) -> Option<&'v str>
    ensures { Finds (λ text. text.now) result (text_in name.now (view value.now)) }
{
    value.get(name)?.as_str()
}

/// Whether the flag under a name is on. One that is left out is off.
pub(crate) fn flag(value: &Value, name: &str) -> Option<bool>
    ensures { result ≡ flag_of (get name.now (view value.now)) }
{
    match value.get(name) {
        Some(flag) => flag.as_bool(),
        None => Some(false),
    }
}

/// The text under a name, if it is short enough for an element.
pub(crate) fn short(value: &Value, name: &str) -> Option<Text>
    ensures value { result ≡ short_in name.now (view value.now) }
    ensures bounds { IfSome result IsShort }
{
    Text::new(text(value, name)?).ok()
}

/// The name of a key, under a name.
pub(crate) fn key(value: &Value, name: &str) -> Option<Text>
    ensures value { result ≡ key_in name.now (view value.now) }
    ensures bounds { IfSome result (λ key. is_key_name key ≡ true) }
{
    let text = text(value, name)?;
    if !is_key_name(text) {
        return None;
    }
    Text::new(text).ok()
}

/// The list under a name.
pub(crate) fn array<'v>(value: &'v Value, name: &str) -> Option<&'v [Value]>
    ensures { Finds (λ list. items_view list.now) result (array_in name.now (view value.now)) }
{
    match value.get(name)?.as_array() {
        Some(list) => Some(list.as_slice()),
        None => None,
    }
}

fn item_count(list: &[Value]) -> usize
    ensures length { result ≡ length list.now }
    ensures value { result ≡ items_len (items_view list.now) }
{
    list.len()
}

/// The list, if it has so many items.
pub(crate) fn counted(list: &[Value], low: usize, high: usize) -> Option<&[Value]>
    ensures value { Finds (λ list. items_view list.now) result (if_count low high (items_view list.now)) }
    ensures same { IfSome result (λ same. same.now ≡ list.now) }
    ensures bounds { IfSome result (λ list. (low ≤ length list.now) × (length list.now ≤ high)) }
{
    let count = item_count(list);
    if low <= count && count <= high {
        Some(list)
    } else {
        None
    }
}

fn are_given(value: &Value, names: &[&str]) -> bool
    ensures { result ≡ list_all (λ name. is_given (view value.now) name.now) names.now }
{
    names.iter().all(|name| value.get(*name).is_some())
}

fn given_count(value: &Value, names: &[&str]) -> usize
    ensures { result ≡ count_by (λ name. is_given (view value.now) name.now) names.now }
{
    names
        .iter()
        .filter(|name| value.get(**name).is_some())
        .count()
}

fn name_count(value: &Value) -> usize
    ensures { result ≡ name_count (as_object (view value.now)) }
{
    match value.as_object() {
        Some(map) => map.len(),
        None => 0,
    }
}

/// Whether the value is an object with all of the names, and no others but the optional ones.
#[tactic(auto, using(crate::proofs::Names::lent_names))]
pub(crate) fn has_names(value: &Value, names: &[&str], optional: &[&str]) -> bool
    ensures { result ≡ has_names (map (λ name. name.now) names.now) (map (λ name. name.now) optional.now) (view value.now) }
{
    let count = names.len() + given_count(value, optional);
    name_count(value) == count && are_given(value, names)
}
