ghost use Rattle.std.specs.Prelude.{◌≡◌, ◌<◌, ◌≤◌, ◌++◌, codes, map, Some, is_some, option_map, IfOk, length};
ghost use Rattle.std.specs.List.{list_all, count_by};
ghost use Rattle.serde_json.specs.Find.{get, as_object};
ghost use Rattle.serde_json.specs.Events.{items_len};
ghost use Rattle.serde_json.specs.View.{view, items_view};
ghost use Rattle.script_reading.specs.Fields.{Finds, whole_of, identity_of, place_of, number_of, amount_of, moment_of, text_of, if_short, array_of, list_of, key_of, is_key_byte, is_key_name, are_objects, is_given, if_given, flag_of, has_names, names_of, given_names, name_count};
ghost use Rattle.script_reading.specs.WellFormed.{IsIdentity, IsPlace, IsAmount, IsMoment, IsShort};

use crate::fault::Rule;
use base_bytes::Text;
use base_vectors::{IDENTITIES, Id};
use model_kinds::Moment;
use serde_json::Value;

/// The greatest amount that is added or taken at once.
pub const MOST_ADDED: u64 = 0x7fff_ffff_ffff_ffff;

/// The greatest moment of a writer's clock.
pub const LAST_MOMENT: u64 = 0x7fff_ffff_ffff_ffff;

/// The greatest identity.
pub const LAST_IDENTITY: u64 = IDENTITIES as u64 - 1;

/// The last place.
pub const LAST_PLACE: u64 = 7;

/// The greatest number of a message on a link, of a view, and of an operation that a step names.
pub const LAST_NUMBER: u64 = 0xffff_ffff;

/// What stands under a name.
fn found<'v>(value: &'v Value, name: &str) -> Option<&'v Value>
    ensures { option_map (λ v. view v.now) result ≡ get name.now (view value.now) }
{
    value.get(name)
}

/// The whole number that stands there, if it is within the bounds.
fn whole_in(field: Option<&Value>, low: u64, high: u64, rule: Rule) -> Result<u64, Rule>
    ensures value { result ≡ whole_of rule low high (option_map (λ v. view v.now) field.entry) }
    ensures bounds { IfOk result (λ n. (low ≤ n) × (n ≤ high)) }
{
    match field.and_then(Value::as_u64) {
        Some(n) if low <= n && n <= high => Ok(n),
        _ => Err(rule),
    }
}

/// The whole number under a name, if it is within the bounds.
pub fn whole(value: &Value, name: &str, low: u64, high: u64, rule: Rule) -> Result<u64, Rule>
    ensures value { result ≡ whole_of rule low high (get name.now (view value.now)) }
    ensures bounds { IfOk result (λ n. (low ≤ n) × (n ≤ high)) }
{
    whole_in(found(value, name), low, high, rule)
}

/// The identity that stands there.
pub fn identity_in(field: Option<&Value>, step: u32) -> Result<Id, Rule>
    ensures value { result ≡ identity_of step (option_map (λ v. view v.now) field.entry) }
    ensures bounds { IfOk result IsIdentity }
{
    let rule = Rule { step, number: 7 };
    match Id::new(whole_in(field, 0, LAST_IDENTITY, rule)? as u8) {
        Some(id) => Ok(id),
        None => Err(rule),
    }
}

/// The identity under a name of a step.
pub fn identity(value: &Value, name: &str, step: u32) -> Result<Id, Rule>
    ensures value { result ≡ identity_of step (get name.now (view value.now)) }
    ensures bounds { IfOk result IsIdentity }
{
    identity_in(found(value, name), step)
}

/// The place of a step.
pub fn place(value: &Value, step: u32) -> Result<u8, Rule>
    ensures value { result ≡ place_of step (get (codes "place") (view value.now)) }
    ensures bounds { IfOk result IsPlace }
{
    let rule = Rule { step, number: 7 };
    Ok(whole(value, "place", 0, LAST_PLACE, rule)? as u8)
}

/// The number of a view, of a message on a link, or of an operation, under a name of a step.
pub fn number(value: &Value, name: &str, step: u32) -> Result<u32, Rule>
    ensures { result ≡ number_of step (get name.now (view value.now)) }
{
    let rule = Rule { step, number: 7 };
    Ok(whole(value, name, 0, LAST_NUMBER, rule)? as u32)
}

/// The number of a message on a link, if it is given.
pub fn index(value: &Value, step: u32) -> Result<Option<u32>, Rule>
    ensures { result ≡ if_given (number_of step) (get (codes "index") (view value.now)) }
{
    if value.get("index").is_none() {
        return Ok(None);
    }
    Ok(Some(number(value, "index", step)?))
}

/// Whether the flag under a name is on. One that is left out is off.
pub fn flag(value: &Value, name: &str, rule: Rule) -> Result<bool, Rule>
    ensures { result ≡ flag_of rule (get name.now (view value.now)) }
{
    let Some(flag) = value.get(name) else {
        return Ok(false);
    };
    match flag.as_bool() {
        Some(on) => Ok(on),
        None => Err(rule),
    }
}

/// The amount that stands there in a step.
pub fn amount_in(field: Option<&Value>, step: u32) -> Result<u64, Rule>
    ensures value { result ≡ amount_of step (option_map (λ v. view v.now) field.entry) }
    ensures bounds { IfOk result IsAmount }
{
    whole_in(field, 1, MOST_ADDED, Rule { step, number: 10 })
}

/// The moment that stands there in a step.
pub fn moment_in(field: Option<&Value>, step: u32) -> Result<Moment, Rule>
    ensures value { result ≡ moment_of step (option_map (λ v. view v.now) field.entry) }
    ensures bounds { IfOk result IsMoment }
{
    let rule = Rule { step, number: 10 };
    match Moment::new(whole_in(field, 0, LAST_MOMENT, rule)?) {
        Some(moment) => Ok(moment),
        None => Err(rule),
    }
}

/// The text that stands there.
pub fn text_in<'v>(field: Option<&'v Value>, rule: Rule) -> Result<&'v str, Rule>
    ensures { Finds (λ text. text.now) result (text_of rule (option_map (λ v. view v.now) field.entry)) }
{
    match field.and_then(Value::as_str) {
        Some(text) => Ok(text),
        None => Err(rule),
    }
}

/// The text under a name.
pub fn text<'v>(value: &'v Value, name: &str, rule: Rule) -> Result<&'v str, Rule>
    ensures { Finds (λ text. text.now) result (text_of rule (get name.now (view value.now))) }
{
    text_in(found(value, name), rule)
}

/// The text itself, if it is short enough for an element.
pub fn short(text: &str, rule: Rule) -> Result<Text, Rule>
    ensures value { result ≡ if_short rule text.now }
    ensures bounds { IfOk result IsShort }
{
    match Text::new(text) {
        Ok(short) => Ok(short),
        Err(_) => Err(rule),
    }
}

fn is_key_byte(byte: u8) -> bool
    ensures { result ≡ is_key_byte byte }
{
    matches!(byte, b'a'..=b'z' | b'0'..=b'9' | b'_' | b'-')
}

fn has_key_bytes(text: &str) -> bool
    ensures { result ≡ list_all is_key_byte text.now }
{
    text.as_bytes().iter().all(|b| is_key_byte(*b))
}

/// Whether the text is a key name: 1 to 32 bytes of `a` to `z`, `0` to `9`, `_` and `-`.
pub fn is_key_name(text: &str) -> bool
    ensures { result ≡ is_key_name text.now }
{
    let count = text.len();
    1 <= count && count <= 32 && has_key_bytes(text)
}

/// The key's name that stands there.
pub fn key_in(field: Option<&Value>, rule: Rule) -> Result<Text, Rule>
    ensures { result ≡ key_of rule (option_map (λ v. view v.now) field.entry) }
{
    let text = text_in(field, rule)?;
    if !is_key_name(text) {
        return Err(rule);
    }
    match Text::new(text) {
        Ok(key) => Ok(key),
        Err(_) => unreachable!(),
    }
}

/// The key's name under a name.
pub fn key(value: &Value, name: &str, rule: Rule) -> Result<Text, Rule>
    ensures { result ≡ key_of rule (get name.now (view value.now)) }
{
    key_in(found(value, name), rule)
}

fn are_given(value: &Value, names: &[&str]) -> bool
    ensures { result ≡ list_all (λ name. is_given (view value.now) name.now) names.now }
{
    names.iter().all(|name| value.get(*name).is_some())
}

fn given_count(value: &Value, names: &[&str]) -> usize
    ensures { result ≡ count_by (λ name. is_given (view value.now) name.now) names.now }
{
    names
        .iter()
        .filter(|name| value.get(**name).is_some())
        .count()
}

fn name_count(value: &Value) -> usize
    ensures { result ≡ name_count (as_object (view value.now)) }
{
    match value.as_object() {
        Some(map) => map.len(),
        None => 0,
    }
}

/// Whether the value is an object with all of the names, and no others but the optional ones.
#[tactic(auto, using(crate::proofs::Names::lent_names))]
pub fn has_names(value: &Value, names: &[&str], optional: &[&str]) -> bool
    ensures { result ≡ has_names (map (λ name. name.now) names.now) (map (λ name. name.now) optional.now) (view value.now) }
{
    let count = names.len() + given_count(value, optional);
    name_count(value) == count && are_given(value, names)
}

/// Whether the value is an object with all of the names, and no others but the optional ones and some more.
#[tactic(auto, using(crate::proofs::Names::more_names))]
fn has_names_of(value: &Value, names: &[&str], optional: &[&str], more: &[&str]) -> bool
    ensures { result ≡ has_names (map (λ name. name.now) names.now) (map (λ name. name.now) optional.now ++ map (λ name. name.now) more.now) (view value.now) }
{
    let known = names.len() + (given_count(value, optional) + given_count(value, more));
    name_count(value) == known && are_given(value, names)
}

/// The names of a step, of which so many were looked up, and which may have some more.
pub fn given_names(
    value: &Value,
    are_given: bool,
    count: usize,
    more: &[&str],
    step: u32,
) -> Result<(), Rule>
    requires { count ≤ 64 }
    ensures { result ≡ given_names step are_given count (map (λ name. name.now) more.now) (view value.now) }
{
    if name_count(value) == count + given_count(value, more) && are_given {
        Ok(())
    } else {
        Err(Rule { step, number: 6 })
    }
}

/// The names of a step. The optional ones are in two lists.
pub fn step_names(
    value: &Value,
    names: &[&str],
    optional: &[&str],
    more: &[&str],
    step: u32,
) -> Result<(), Rule>
    ensures { result ≡ names_of step (map (λ name. name.now) names.now) (map (λ name. name.now) optional.now ++ map (λ name. name.now) more.now) (view value.now) }
{
    if has_names_of(value, names, optional, more) {
        Ok(())
    } else {
        Err(Rule { step, number: 6 })
    }
}

fn array<'v>(value: &'v Value, rule: Rule) -> Result<&'v Vec<Value>, Rule>
    ensures { Finds (λ list. items_view list.now.items) result (array_of rule (Some (view value.now))) }
{
    match value.as_array() {
        Some(list) => Ok(list),
        None => Err(rule),
    }
}

fn item_count(list: &[Value]) -> usize
    ensures length { result ≡ length list.now }
    ensures value { result ≡ items_len (items_view list.now) }
{
    list.len()
}

/// The value as a list, if it is one and has so many items.
pub fn listed<'v>(
    value: &'v Value,
    low: usize,
    high: usize,
    rule: Rule,
) -> Result<&'v [Value], Rule>
    ensures items { Finds (λ list. items_view list.now) result (list_of rule low high (Some (view value.now))) }
    ensures bounds { IfOk result (λ list. (low ≤ length list.now) × (length list.now ≤ high)) }
{
    let list = array(value, rule)?.as_slice();
    let count = item_count(list);
    if low <= count && count <= high {
        Ok(list)
    } else {
        Err(rule)
    }
}

/// The list under a name, if it has so many items.
pub fn list<'v>(
    value: &'v Value,
    name: &str,
    low: usize,
    high: usize,
    rule: Rule,
) -> Result<&'v [Value], Rule>
    ensures items { Finds (λ list. items_view list.now) result (list_of rule low high (get name.now (view value.now))) }
    ensures bounds { IfOk result (λ list. (low ≤ length list.now) × (length list.now ≤ high)) }
{
    match value.get(name) {
        Some(field) => listed(field, low, high, rule),
        None => Err(rule),
    }
}

fn each_is_object(list: &[Value]) -> bool
    ensures { result ≡ list_all (λ item. is_some (as_object (view item))) list.now }
{
    list.iter().all(|item| item.as_object().is_some())
}

/// Whether each item of a list is an object.
#[tactic(auto, using(crate::proofs::Lists::are_objects_items_view))]
pub fn are_objects(list: &[Value]) -> bool
    ensures { result ≡ are_objects (items_view list.now) }
{
    each_is_object(list)
}
