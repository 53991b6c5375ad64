//! What a delta log answers.

ghost use Rattle.std.specs.Prelude.{◌≡◌, ◌≤◌, IfSome};

use crate::same::same;
use base_bytes::Memory;
use base_vectors::{Id, Seq, VersionVector};
use data_counters::{Amount, GCounter, Share};
use data_deltalog::{DeltaLog, Grouped};
use std::alloc::Global;
use std::test::Fail;

/// What the maker of the records had before one of them: its earlier ones, and of another two more each time.
fn before(alloc: Global, origin: Id, other: Id, seq: Seq) -> Result<VersionVector, Memory>
    requires { (1 ≤ seq) × (seq ≤ 1000) }
{
    let mut before = VersionVector::new(alloc);
    before.raise(other, 2 * seq)?;
    if seq > 1 {
        before.raise(origin, seq - 1)?;
    }
    Ok(before)
}

/// An increment by one, or a prune.
fn delta(origin: Id, seq: Seq, prune: Seq) -> Option<Share>
    ensures { IfSome result (λ share. share.origin ≡ origin) }
{
    if seq == prune {
        return None;
    }
    let share = Amount::new(seq)?;
    Some(Share { origin, share })
}

/// A log of so many increments by one, but for one number, which is a prune.
fn filled(
    alloc: Global,
    origin: Id,
    other: Id,
    last: Seq,
    prune: Seq,
) -> Result<DeltaLog<GCounter>, Memory>
    requires { last ≤ 1000 }
{
    let mut log = DeltaLog::new(alloc, origin, ());
    for number in 0..last {
        let seq = number + 1;
        let before = before(alloc, origin, other, seq)?;
        let next = log.prepare(alloc, &before, delta(origin, seq, prune))?;
        log.add(next);
    }
    Ok(log)
}

/// Which answer it is; of a group its numbers, what it needs of both, and the share.
fn spelled(grouped: &Grouped<GCounter>, origin: Id, other: Id) -> (&'static str, [u64; 5]) {
    match grouped {
        Grouped::Nothing => ("nothing", [0; 5]),
        Grouped::TooOld => ("too old", [0; 5]),
        Grouped::NoDelta => ("no delta", [0; 5]),
        Grouped::Group(group) => (
            "group",
            [
                group.after,
                group.upto,
                group.needs.at(origin),
                group.needs.at(other),
                group.delta.share.number(),
            ],
        ),
    }
}

/// Who makes the records, and of whom it heard.
fn makers() -> Option<(Id, Id)> {
    Some((Id::new(3)?, Id::new(0)?))
}

/// A number, and what a log answers after it.
type Row = (Seq, &'static str, [u64; 5]);

/// A log answers so after this number.
fn check_answer(
    alloc: Global,
    log: &DeltaLog<GCounter>,
    origin: Id,
    other: Id,
    row: &Row,
) -> Result<(), Fail> {
    let (after, wanted, numbers) = row;
    let grouped = log.group(alloc, *after)?;
    same(
        &spelled(&grouped, origin, other),
        &(*wanted, *numbers),
        "the answer of a log",
    )
}

/// A log of so many records, of which one number is a prune, answers so after each of these numbers.
fn check_groups(alloc: Global, last: Seq, prune: Seq, rows: &[Row]) -> Result<(), Fail>
    requires { last ≤ 1000 }
{
    let (origin, other) = makers().ok_or("identities")?;
    let log = filled(alloc, origin, other, last, prune)?;
    for row in rows {
        check_answer(alloc, &log, origin, other, row)?;
    }
    Ok(())
}

#[test]
fn fifty_records_go_as_one_group(rt: HostRuntime) -> Result<(), Fail> {
    let rows = [
        (0, "group", [0, 50, 0, 100, 50]),
        (49, "group", [49, 50, 49, 100, 50]),
        (50, "nothing", [0; 5]),
    ];
    check_groups(rt.alloc(), 50, 0, &rows)
}

#[test]
fn of_fifty_one_records_the_first_is_gone(rt: HostRuntime) -> Result<(), Fail> {
    let rows = [(0, "too old", [0; 5]), (1, "group", [1, 51, 1, 102, 51])];
    check_groups(rt.alloc(), 51, 0, &rows)
}

#[test]
fn a_prune_goes_in_no_group(rt: HostRuntime) -> Result<(), Fail> {
    let rows = [(3, "no delta", [0; 5]), (4, "group", [4, 9, 4, 18, 9])];
    check_groups(rt.alloc(), 9, 4, &rows)
}
