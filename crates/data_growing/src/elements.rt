ghost use Rattle.std.specs.Prelude.{◌≡◌, ◌<◌, ◌≤◌, ◌+◌, [], ◌∷◌, ◌++◌, vec_len, vec_capacity, true, IsOk, OnOk, OnErr, IfOk, IfNone, IfSome};
ghost use Rattle.model_history.specs.Texts.{text_set, contains_text};
ghost use Rattle.base_bytes.specs.TextOrder.{text_order, IsRising};
ghost use Rattle.data_growing.specs.Texts.{IsPlace, IsFound};

use base_bytes::{Memory, Text};
use std::alloc::Global;
use std::cmp::Ordering;

/// Which of two texts comes first, by their bytes.
pub(crate) fn order(text: &Text, other: &Text) -> Ordering
    ensures { result ≡ text_order text.now other.now }
{
    text.as_str().cmp(other.as_str())
}

/// The place of a text in a rising list, or else the place at which it belongs.
fn search(texts: &[Text], text: &Text) -> Result<usize, usize>
    requires { IsRising texts.now }
    ensures { IsFound texts.now text.now result }
{
    let mut low = 0;
    let mut high = texts.len();
    while low < high {
        let middle = low + (high - low) / 2;
        match order(&texts[middle], text) {
            Ordering::Less => low = middle + 1,
            Ordering::Equal => return Ok(middle),
            Ordering::Greater => high = middle,
        }
    }
    Err(low)
}

/// The place of a text in a rising list, or else the place at which it belongs. A text that comes after the list's last is found by one look.
pub fn find(texts: &[Text], text: &Text) -> Result<usize, usize>
    requires { IsRising texts.now }
    ensures { IsFound texts.now text.now result }
{
    if texts.is_empty() {
        return Err(0);
    }
    let last = texts.len() - 1;
    match order(&texts[last], text) {
        Ordering::Less => Err(texts.len()),
        Ordering::Equal => Ok(last),
        Ordering::Greater => search(texts, text),
    }
}

/// The index at which a text belongs, unless it is there.
pub(crate) fn place(elements: &[Text], element: &Text) -> Option<usize>
    requires { IsRising elements.now }
    ensures present { IfNone result (contains_text elements.now element.now ≡ true) }
    ensures place { IfSome result (λ index. IsPlace elements.now element.now index) }
{
    match find(elements, element) {
        Ok(_) => None,
        Err(index) => Some(index),
    }
}

/// Adds a text to a rising list, unless it is there.
fn put(texts: &mut Vec<Text>, text: &Text) -> Result<(), Memory>
    requires { IsRising texts.old.items }
    ensures ok { OnOk result (texts.new.items ≡ text_set (texts.old.items ++ text.now ∷ [])) }
    ensures err { OnErr result (texts.new.items ≡ texts.old.items) }
    ensures fits { vec_len texts.old < vec_capacity texts.old → IsOk result }
    ensures grown { (vec_len texts.new ≤ vec_len texts.old + 1) × (vec_capacity texts.old ≤ vec_capacity texts.new) }
{
    match place(texts, text) {
        None => Ok(()),
        Some(index) => Ok(texts.insert(index, text.copied())?),
    }
}

/// Adds texts to a rising list, each at its place. After a refusal the list is as it was.
pub(crate) fn put_all(texts: &mut Vec<Text>, others: &[Text]) -> Result<(), Memory>
    requires { IsRising texts.old.items }
    ensures rising { IsRising texts.new.items }
    ensures ok { OnOk result (texts.new.items ≡ text_set (texts.old.items ++ others.now)) }
    ensures err { OnErr result (texts.new.items ≡ texts.old.items) }
{
    texts.reserve(others.len())?;
    for text in others {
        put(texts, text)?;
    }
    Ok(())
}

/// Adds a copy of a text at the end.
fn append(all: &mut Vec<Text>, alloc: Global, text: &Text) -> Result<(), Memory>
    ensures { OnOk result (all.new.items ≡ all.old.items ++ text.now ∷ []) }
{
    let copy = text.copied();
    match all.push(copy) {
        Ok(()) => Ok(()),
        Err(_) => Err(Memory),
    }
}

/// Adds copies of texts at the end.
fn append_all(all: &mut Vec<Text>, alloc: Global, texts: &[Text]) -> Result<(), Memory>
    ensures { OnOk result (all.new.items ≡ all.old.items ++ texts.now) }
{
    for text in texts {
        append(all, alloc, text)?;
    }
    Ok(())
}

/// Copies of texts.
pub fn copied(alloc: Global, texts: &[Text]) -> Result<Vec<Text>, Memory>
    ensures { IfOk result (λ copy. copy.items ≡ texts.now) }
{
    let mut all = Vec::with_capacity(alloc, texts.len())?;
    for text in texts {
        all.push_reserved(text.copied());
    }
    Ok(all)
}

/// The elements of two sets, in one pass over both.
pub(crate) fn merged(alloc: Global, mine: &[Text], theirs: &[Text]) -> Result<Vec<Text>, Memory>
    requires mine { IsRising mine.now }
    requires theirs { IsRising theirs.now }
    ensures { IfOk result (λ all. all.items ≡ text_set (mine.now ++ theirs.now)) }
{
    let mut all = Vec::new(alloc);
    let mut here = 0;
    let mut there = 0;
    while here < mine.len() && there < theirs.len() {
        let next = &mine[here];
        let their_next = &theirs[there];
        match order(next, their_next) {
            Ordering::Less => {
                append(&mut all, alloc, next)?;
                here += 1;
            }
            Ordering::Equal => {
                append(&mut all, alloc, next)?;
                here += 1;
                there += 1;
            }
            Ordering::Greater => {
                append(&mut all, alloc, their_next)?;
                there += 1;
            }
        }
    }
    append_all(&mut all, alloc, &mine[here..])?;
    append_all(&mut all, alloc, &theirs[there..])?;
    Ok(all)
}
