ghost use Rattle.std.specs.Prelude.{◌≡◌};

use crate::clients::by_two;
use crate::shelf::{Fate, Shelf};
use crate::tally::Tally;
use std::alloc::Global;
use std::marker::Brand;
use std::process::Abort;
use std::sync::Wait;
use std::test::*;
use std::thread::Threads;
use thread_cell::calls::OwnCalls;
use thread_cell::histories::Histories;
use thread_cell::name::Name;
use thread_cell::unnamed::Unnamed;
use thread_machine::entry::Entry;
use thread_machine::machines::Machines;

fn tally(total: u64, tells: bool, fails_at: u64) -> Option<Tally> {
    Some(Tally {
        total,
        shelf: Shelf {
            tells,
            number: total,
            calls: 0,
            fails_at,
            faults: 0,
        },
    })
}

fn tallies() -> Machines<Tally> {
    Machines {
        p0: tally(0, true, 1),
        p1: tally(100, false, 0),
        p2: None,
        p3: None,
        p4: None,
        p5: None,
        p6: None,
        p7: None,
    }
}

#[test]
fn two_clients(rt: HostRuntime) -> Result<(), Fail> {
    match Unnamed::new(rt.alloc(), tallies(), 2) {
        Ok(unnamed) => added::<Brand, _>(&rt, rt.alloc(), unnamed),
        Err(_) => panic!(rt; "no memory"),
    }
}

// The first shelf loses the second number, the second one its first.
fn added<N: Name + Send + Sync, R: Threads + Wait + Abort + Sync>(
    rt: &R,
    alloc: Global,
    unnamed: Unnamed<Tally>,
) -> Result<(), Fail>
    requires { unnamed.table ≡ N.table }
{
    let ran = by_two::<N, R>(rt, alloc, unnamed).ok_or("both add")?;
    totals(rt, &ran.closed.machines)?;
    entries(rt, &ran.closed.histories);
    calls(rt, &ran.closed.calls);
    stamps(rt, ran.stamps);
    seen(rt, ran.seen);
    Ok(())
}

fn totals(rt: &impl Abort, machines: &Machines<Tally>) -> Result<(), Fail> {
    first(rt, machines.p0.as_ref().ok_or("the first")?);
    second(rt, machines.p1.as_ref().ok_or("the second")?);
    Ok(())
}

// The shelf holds the first total.
fn first(rt: &impl Abort, one: &Tally) {
    assert_eq!(rt; (one.total, one.shelf.faults), (12, 1));
    assert!(rt; one.shelf.number == 5 || one.shelf.number == 7);
}

// The shelf holds the last total.
fn second(rt: &impl Abort, two: &Tally) {
    assert!(rt; two.total == 100 + 5 + 12 || two.total == 100 + 7 + 12);
    assert_eq!(rt; (two.shelf.number, two.shelf.faults), (two.total, 1));
}

fn entries(rt: &impl Abort, histories: &Histories<Tally>) {
    assert_eq!(rt; fates(rt, &histories.p0), (Fate::Kept, Fate::Lost));
    assert_eq!(rt; fates(rt, &histories.p1), (Fate::Lost, Fate::Kept));
    assert_eq!(rt; histories.p2.len(), 0);
}

// The fates of two entries, by one client each, whose stamps rise.
fn fates(rt: &impl Abort, history: &[Entry<Tally>]) -> (Fate, Fate) {
    match history {
        [first, second] => {
            assert!(rt; first.stamp < second.stamp);
            assert!(rt; first.client != second.client);
            (first.fate, second.fate)
        }
        _ => panic!(rt; "a history of two entries"),
    }
}

// Each client made two calls.
fn calls(rt: &impl Abort, calls: &[OwnCalls]) {
    match calls {
        [first, second] => {
            assert_eq!(rt; (first.calls.len(), second.calls.len()), (2, 2));
        }
        _ => panic!(rt; "the calls of two clients"),
    }
}

fn stamps(rt: &impl Abort, stamps: (u64, u64)) {
    let (first, second) = stamps;
    assert!(rt; first != second && first <= 4 && second <= 4);
}

// One client saw both amounts, and each its own.
fn seen(rt: &impl Abort, seen: (u64, u64)) {
    let (first, second) = seen;
    assert!(rt; (first == 12 || second == 12) && first >= 5 && second >= 7);
}
