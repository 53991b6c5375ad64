//! Marks of entries, at the calls.

use base_vectors::{Id, Order, VersionVector};
use data_codec::read;
use data_envelope::{Envelope, Init};
use data_lattice::{Replica, SpelledData};
use data_value::Data;
use report_texts::push_marks;
use std::alloc::Global;
use std::test::Fail;
use trial_parts::{MARKED, PRUNED, bytes_of};

/// A growing counter: a record and a share each of identities 0 and 2.
const COUNTED: &str =
    "010100020000000000000000010200000000000000010200000000000000000502000000000000000a";

fn id(number: u8) -> Result<Id, Fail> {
    Ok(Id::new(number).ok_or("identity")?)
}

fn envelope<T: SpelledData>(alloc: Global, text: &str) -> Result<Envelope<T>, Fail> {
    match read(alloc, &bytes_of(alloc, text)?) {
        Ok(envelope) => Ok(envelope),
        Err(_) => Err("not read".into()),
    }
}

fn merge<T: Replica>(mine: &mut Envelope<T>, theirs: &Envelope<T>) -> Result<(), Fail> {
    if !mine.value().same_kind(theirs.value()) {
        return Err("two kinds".into());
    }
    Ok(mine.merge(theirs)?)
}

/// Whether a version vector has 1 at these identities, and nothing at others.
fn has_ones(alloc: Global, vector: &VersionVector, ids: &[u8]) -> Result<bool, Fail> {
    let mut ones = VersionVector::new(alloc);
    for number in ids {
        ones.raise(id(*number)?, 1)?;
    }
    Ok(matches!(vector.compare(&ones), Order::Same))
}

/// What becomes of a mark of identity 2 that is begun twice in view 1 and then in view 0, and of one of identity 3.
fn tries<T: Replica>(counter: &mut Envelope<T>) -> Result<[Init; 4], Fail> {
    let (leader, removed, unknown) = (id(0)?, id(2)?, id(3)?);
    let first = counter.init_prune(removed, leader, 1)?;
    let again = counter.init_prune(removed, leader, 1)?;
    let before = counter.init_prune(removed, leader, 0)?;
    let other = counter.init_prune(unknown, leader, 1)?;
    Ok([first, again, before, other])
}

/// The same of the counter, which has records of identities 0 and 2.
fn tries_at_counter<T: SpelledData>(alloc: Global) -> Result<[Init; 4], Fail> {
    let mut counter: Envelope<T> = envelope(alloc, COUNTED)?;
    if !has_ones(alloc, counter.versions(), &[0, 2])? {
        return Err("other versions".into());
    }
    tries(&mut counter)
}

#[test]
fn a_mark_is_begun_once_a_view(rt: HostRuntime) -> Result<(), Fail> {
    match tries_at_counter::<Data>(rt.alloc())? {
        [
            Init::Marked,
            Init::Standing,
            Init::Newer,
            Init::NothingKnown,
        ] => Ok(()),
        _ => Err("a mark is begun otherwise".into()),
    }
}

/// Begins a mark of identity 2, by identity 0 in view 1.
fn mark<T: Replica>(counter: &mut Envelope<T>) -> Result<(), Fail> {
    let (leader, removed) = (id(0)?, id(2)?);
    counter.init_prune(removed, leader, 1)?;
    Ok(())
}

/// Adds the mark of an entry to an entry with the same mark.
fn join<T: Replica>(counter: &mut Envelope<T>, marked: &Envelope<T>) -> Result<(), Fail> {
    mark(counter)?;
    merge(counter, marked)
}

/// An entry with the mark of identity 2, which identity 1 has seen too, and records of identity 2 alone.
fn marked<T: SpelledData>(alloc: Global) -> Result<Envelope<T>, Fail> {
    let marked: Envelope<T> = envelope(alloc, MARKED[0])?;
    if !has_ones(alloc, marked.versions(), &[2])? {
        return Err("other versions".into());
    }
    Ok(marked)
}

/// The counter with a mark of its own, and that of another entry.
fn joined<T: SpelledData>(alloc: Global, marked: &Envelope<T>) -> Result<Envelope<T>, Fail> {
    let mut counter = envelope(alloc, COUNTED)?;
    join(&mut counter, marked)?;
    Ok(counter)
}

/// The marks of an entry, as a report tells them.
fn marks_of<T: Replica>(alloc: Global, envelope: &Envelope<T>) -> Result<String, Fail> {
    let mut text = String::new(alloc);
    push_marks(alloc, &mut text, envelope)?;
    Ok(text)
}

/// The marks of the counter, joined with those of the other entry.
fn joined_marks<T: SpelledData>(alloc: Global) -> Result<String, Fail> {
    let marked: Envelope<T> = marked(alloc)?;
    marks_of(alloc, &joined(alloc, &marked)?)
}

#[test]
fn marks_of_one_view_are_joined(rt: HostRuntime) -> Result<(), Fail> {
    assert_eq!(rt; joined_marks::<Data>(rt.alloc())?.as_str(), "2>0/1:0.1");
    Ok(())
}

/// Merges into an entry one whose member had pruned identity 2.
fn merge_pruned<T: SpelledData>(alloc: Global, entry: &mut Envelope<T>) -> Result<(), Fail> {
    merge(entry, &envelope(alloc, PRUNED[0])?)
}

/// Whether an entry mentions identity 2 nowhere, but knows its record and that of identity 0.
fn is_pruned<T: Replica>(alloc: Global, entry: &Envelope<T>) -> Result<bool, Fail> {
    let removed = id(2)?;
    if entry.value().mentions(removed) || entry.versions().at(removed) != 0 {
        return Ok(false);
    }
    has_ones(alloc, &entry.known(alloc)?, &[0, 2])
}

/// Whether the marked entry is so, once the other is merged into it.
fn is_pruned_by_the_merge<T: SpelledData>(alloc: Global) -> Result<bool, Fail> {
    let mut entry: Envelope<T> = marked(alloc)?;
    merge_pruned(alloc, &mut entry)?;
    is_pruned(alloc, &entry)
}

#[test]
fn whom_another_pruned_is_not_mentioned(rt: HostRuntime) -> Result<(), Fail> {
    assert!(rt; is_pruned_by_the_merge::<Data>(rt.alloc())?);
    Ok(())
}
