ghost use Rattle.std.specs.Prelude.{◌≡◌, ◌≤◌, [], ◌∷◌, ◌++◌, length, fold, filter, filter_map, option_copied, OnOk, IfOk, IfNone, IfSome};
ghost use Rattle.std.specs.List.{insert};
ghost use Rattle.std.specs.Option.{option_to_list};
ghost use Rattle.model_history.specs.Texts.{text_set, with_text};
ghost use Rattle.model_kinds.specs.SixKinds.{added};
ghost use Rattle.model_meanings.specs.Growing.{found};
ghost use Rattle.base_bytes.specs.TextOrder.{text_order};
ghost use Rattle.data_meaning.specs.Records.{action_of};
ghost use Rattle.data_meaning.specs.Touching.{is_shown};

use crate::record::{Action, Record};
use crate::touches::{has_live, touching};
use base_bytes::{Memory, Text};
use model_kinds::Op;
use std::alloc::Global;
use std::cmp::Ordering;

/// Which of two texts comes first, by their bytes.
fn order(text: &Text, other: &Text) -> Ordering
    ensures { result ≡ text_order text.now other.now }
{
    text.as_str().cmp(other.as_str())
}

/// The index at which a text belongs in byte order, unless it is there.
fn place(texts: &[Text], text: &Text) -> Option<usize>
    ensures present { IfNone result (with_text texts.now text.now ≡ texts.now) }
    ensures within { IfSome result (λ index. index ≤ length texts.now) }
    ensures place { IfSome result (λ index. insert texts.now index text.now ≡ with_text texts.now text.now) }
{
    let mut index = 0;
    while index < texts.len() {
        match order(text, &texts[index]) {
            Ordering::Less => return Some(index),
            Ordering::Equal => return None,
            Ordering::Greater => index += 1,
        }
    }
    Some(index)
}

/// Puts a text in its place, unless it is there.
fn put(texts: &mut Vec<Text>, alloc: Global, text: &Text) -> Result<(), Memory>
    ensures { OnOk result (texts.new.items ≡ with_text texts.old.items text.now) }
{
    let Some(index) = place(texts, text) else {
        return Ok(());
    };
    let copy = text.copied();
    match texts.insert(index, copy) {
        Ok(()) => Ok(()),
        Err(_) => Err(Memory),
    }
}

/// The element that a record adds.
fn added(action: &Action) -> Option<&Text>
    ensures { option_copied result ≡ found added (action_of action.now) }
{
    match action {
        Action::Operation(Op::Add(text)) => Some(text),
        _ => None,
    }
}

/// Puts the element that a record adds in its place.
fn put_added(texts: &mut Vec<Text>, alloc: Global, action: &Action) -> Result<(), Memory>
    ensures { OnOk result (texts.new.items ≡ fold with_text texts.old.items (option_to_list (found added (action_of action.now)))) }
{
    match added(action) {
        None => Ok(()),
        Some(text) => put(texts, alloc, text),
    }
}

/// The elements that records add, each once, in byte order.
pub(crate) fn added_elements(alloc: Global, records: &[Record]) -> Result<Vec<Text>, Memory>
    ensures { IfOk result (λ all. all.items ≡ text_set (filter_map (λ r. found added (action_of r.action)) records.now)) }
{
    let mut elements = Vec::new(alloc);
    for record in records {
        put_added(&mut elements, alloc, &record.action)?;
    }
    Ok(elements)
}

/// Whether the element has a live adding record.
fn is_shown(alloc: Global, records: &[Record], element: &Text) -> Result<bool, Memory>
    ensures { IfOk result (λ shown. shown ≡ is_shown records.now element.now) }
{
    let touching = touching(alloc, records, element)?;
    Ok(has_live(records, &touching, element))
}

/// Adds a copy of the element at the end, if it has a live adding record.
fn append_shown(
    elements: &mut Vec<Text>,
    alloc: Global,
    records: &[Record],
    element: &Text,
) -> Result<(), Memory>
    ensures { OnOk result (elements.new.items ≡ elements.old.items ++ filter (is_shown records.now) (element.now ∷ [])) }
{
    if !is_shown(alloc, records, element)? {
        return Ok(());
    }
    let copy = element.copied();
    match elements.push(copy) {
        Ok(()) => Ok(()),
        Err(_) => Err(Memory),
    }
}

/// Those of the elements that have a live adding record.
fn shown(alloc: Global, records: &[Record], elements: &[Text]) -> Result<Vec<Text>, Memory>
    ensures { IfOk result (λ shown. shown.items ≡ filter (is_shown records.now) elements.now) }
{
    let mut shown = Vec::new(alloc);
    for element in elements {
        append_shown(&mut shown, alloc, records, element)?;
    }
    Ok(shown)
}

/// The elements with a live adding record, in byte order.
pub(crate) fn live_elements(alloc: Global, records: &[Record]) -> Result<Vec<Text>, Memory>
    ensures { IfOk result (λ all. all.items ≡ filter (is_shown records.now) (text_set (filter_map (λ r. found added (action_of r.action)) records.now))) }
{
    let added = added_elements(alloc, records)?;
    shown(alloc, records, &added)
}
