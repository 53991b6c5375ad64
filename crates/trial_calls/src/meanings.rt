//! Meanings of lists of records.

use crate::same::holds;
use base_bytes::Text;
use base_vectors::{Id, VersionVector};
use data_meaning::{Action, Record, meaning};
use model_kinds::{Kind, Moment, Op, Shown};
use std::alloc::Global;
use std::test::Fail;

/// The greatest number in the examples' pasts.
const GREATEST_NUMBER: u64 = 9;

fn id(number: u8) -> Result<Id, Fail> {
    Ok(Id::new(number).ok_or("identity")?)
}

/// What a record did, in texts and numbers.
#[derive(Clone, Copy)]
enum Act {
    Add(&'static str),
    Remove(&'static str),
    Assign(&'static str, u64),
    Prune(u8),
}

/// Identities with numbers.
type Counts = &'static [(u8, u64)];

const NOTHING: Counts = &[];

const BOTH_ADDS: Counts = &[(1, 1), (2, 1)];

const FIRST_ADD: Counts = &[(2, 1)];

/// A record: its origin, its number, what it did, and its past.
type Row = (u8, u64, Act, Counts);

/// A past with these numbers, none of them 0.
fn past(alloc: Global, counts: Counts) -> Result<VersionVector, Fail> {
    let mut past = VersionVector::new(alloc);
    for (other, count) in counts {
        if *count == 0 || *count > GREATEST_NUMBER {
            return Err("number".into());
        }
        past.raise(id(*other)?, *count)?;
    }
    Ok(past)
}

/// The writing of a text.
fn assigned(text: &str, now: u64) -> Result<Op, Fail> {
    let text = Text::new(text)?;
    let now = Moment::new(now).ok_or("moment")?;
    Ok(Op::Assign { text, now })
}

/// What a record did, as an action.
fn action(act: Act) -> Result<Action, Fail> {
    let op = match act {
        Act::Add(element) => Op::Add(Text::new(element)?),
        Act::Remove(element) => Op::Remove(Text::new(element)?),
        Act::Assign(text, now) => assigned(text, now)?,
        Act::Prune(removed) => return Ok(Action::Prune(id(removed)?)),
    };
    Ok(Action::Operation(op))
}

/// The record of a row.
fn record(alloc: Global, row: &Row) -> Result<Record, Fail> {
    let (origin, number, act, counts) = row;
    let origin = id(*origin)?;
    let past = past(alloc, counts)?;
    let action = action(*act)?;
    Ok(Record {
        origin,
        number: *number,
        action,
        past,
    })
}

/// The records of the rows.
fn records(alloc: Global, rows: &[Row]) -> Result<Vec<Record>, Fail> {
    let mut records = Vec::new(alloc);
    for row in rows {
        let record = record(alloc, row)?;
        records.push(record)?;
    }
    Ok(records)
}

/// How many elements a set with removes shows.
fn elements(alloc: Global, rows: &[Row]) -> Result<usize, Fail> {
    let records = records(alloc, rows)?;
    match meaning(alloc, Kind::OrSet, records)? {
        Shown::Elements(elements) => Ok(elements.as_slice().len()),
        _ => Err("no set".into()),
    }
}

/// Whether a register shows a text.
fn shows(alloc: Global, rows: &[Row], text: &str) -> Result<bool, Fail> {
    let records = records(alloc, rows)?;
    let shown = meaning(alloc, Kind::LwwRegister, records)?;
    match &shown {
        Shown::Written(written) => Ok(written.as_str() == text),
        _ => Err("no register".into()),
    }
}

/// How many elements are shown of one that an identity added, another added and removed, and of which a third prunes the first.
fn elements_after_prune(alloc: Global, seen: Counts) -> Result<usize, Fail> {
    let rows = [
        (2, 1, Act::Add("x"), NOTHING),
        (1, 2, Act::Remove("x"), BOTH_ADDS),
        (1, 1, Act::Add("x"), seen),
        (0, 1, Act::Prune(2), BOTH_ADDS),
    ];
    elements(alloc, &rows)
}

#[test]
fn a_prune_adds_again_what_was_live_and_nothing_else(rt: HostRuntime) -> Result<(), Fail> {
    let alloc = rt.alloc();
    let live = elements_after_prune(alloc, NOTHING)?;
    let gone = elements_after_prune(alloc, FIRST_ADD)?;
    holds(live == 1 && gone == 0, "elements after a prune")
}

#[test]
fn of_two_writes_at_one_timestamp_the_least_origin_wins(rt: HostRuntime) -> Result<(), Fail> {
    let rows = [
        (3, 1, Act::Assign("high", 7), NOTHING),
        (2, 1, Act::Assign("low", 7), NOTHING),
    ];
    holds(shows(rt.alloc(), &rows, "low")?, "which write wins")
}
