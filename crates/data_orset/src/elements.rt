ghost use Rattle.std.specs.Prelude.{◌≡◌, ◌<◌, ◌≤◌, ◌^◌, [], ◌∷◌, ◌++◌, not, nat_eq, length, map, take, drop, OnOk, IfOk, if◌then◌else◌};
ghost use Rattle.std.specs.List.{filter, list_any};
ghost use Rattle.std.specs.Str.{bytes_eq};
ghost use Rattle.model_history.specs.Texts.{text_set};
ghost use Rattle.base_bytes.specs.TextOrder.{text_order, IsRising};
ghost use Rattle.data_orset.specs.Placing.{AreDots, at_dot, nth};
ghost use Rattle.data_orset.specs.Keeping.{texts_of, is_other, IsFirstOf};

use crate::dot_list::DotList;
use crate::dots::{All, append, append_kept, kept};
use base_bytes::{Memory, Text};
use base_vectors::{Dot, Id};
use std::alloc::Global;
use std::cmp::Ordering;

/// Whether one of the dots is of this element.
pub(crate) fn has_element(dots: &DotList, element: &Text) -> bool
    requires { AreDots dots.now }
    ensures { result ≡ list_any (λ p. bytes_eq element.now p.element) dots.now }
{
    let run = dots.run_of(element);
    run.0 < run.1
}

/// The dots from an index up to another.
pub(crate) fn between(
    alloc: Global,
    dots: &DotList,
    start: usize,
    end: usize,
) -> Result<DotList, Memory>
    requires { end ≤ length dots.now }
    ensures { IfOk result (λ part. part ≡ drop start (take end dots.now)) }
{
    let mut part = DotList::new(alloc);
    for index in start..end {
        append(&mut part, dots, index, true)?;
    }
    Ok(part)
}

/// Whether the dot at an index is the first of its element.
fn is_first(dots: &DotList, index: usize) -> bool
    requires dots { AreDots dots.now }
    requires inside { index < length dots.now }
    ensures { IsFirstOf dots.now index result }
{
    index == 0 || !dots.same_element(index - 1, index)
}

/// Adds a copy of a text at the end, if it is new.
fn append_text(all: &mut Vec<Text>, text: &Text, new: bool) -> Result<(), Memory>
    ensures { OnOk result (all.new.items ≡ all.old.items ++ (if new then text.now ∷ [] else [])) }
{
    if !new {
        return Ok(());
    }
    match all.push(text.copied()) {
        Ok(()) => Ok(()),
        Err(_) => Err(Memory),
    }
}

/// The elements of the dots in byte order, each once.
pub(crate) fn elements_of(alloc: Global, dots: &DotList) -> Result<Vec<Text>, Memory>
    requires { AreDots dots.now }
    ensures { IfOk result (λ all. all.items ≡ text_set (texts_of dots.now)) }
{
    let mut all = Vec::with_capacity(alloc, dots.len())?;
    for index in 0..dots.len() {
        append_text(&mut all, dots.element(index), is_first(dots, index))?;
    }
    Ok(all)
}

/// The elements with a dot of an identity, in byte order, each once.
pub(crate) fn elements_at(alloc: Global, dots: &DotList, id: Id) -> Result<Vec<Text>, Memory>
    requires { AreDots dots.now }
    ensures { IfOk result (λ all. all.items ≡ text_set (texts_of (filter (λ p. nat_eq p.origin id) dots.now))) }
{
    let own = kept(alloc, dots, &id)?;
    elements_of(alloc, &own)
}

/// How many elements the dots have.
pub(crate) fn count_elements(dots: &DotList) -> usize
    requires { AreDots dots.now }
    ensures { result ≡ length (text_set (texts_of dots.now)) }
{
    let mut count = 0;
    for index in 0..dots.len() {
        count += is_first(dots, index) as usize;
    }
    count
}

/// Texts at one dot.
pub(crate) fn placed_at(alloc: Global, texts: &[Text], dot: &Dot) -> Result<DotList, Memory>
    ensures { IfOk result (λ all. all ≡ map (at_dot dot.now) texts.now) }
{
    let mut all = DotList::new(alloc);
    for text in texts {
        all.push(text, dot)?;
    }
    Ok(all)
}

/// Copies of the dots whose elements are none of the texts, in one pass over both.
pub(crate) fn others(alloc: Global, dots: &DotList, texts: &[Text]) -> Result<DotList, Memory>
    requires dots { AreDots dots.now }
    requires texts { IsRising texts.now }
    ensures { IfOk result (λ all. all ≡ filter (is_other texts.now) dots.now) }
{
    let mut all = DotList::new(alloc);
    let mut here = 0;
    let mut there = 0;
    while here < dots.len() && there < texts.len() {
        let text = &texts[there];
        match dots.element(here).as_str().cmp(text.as_str()) {
            Ordering::Less => {
                append(&mut all, dots, here, true)?;
                here += 1;
            }
            Ordering::Equal => here += 1,
            Ordering::Greater => there += 1,
        }
    }
    append_kept(&mut all, dots, here, &All)?;
    Ok(all)
}
