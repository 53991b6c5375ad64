ghost use Rattle.std.specs.Prelude.{◌≡◌, map, IfSome};
ghost use Rattle.thread_cell.specs.Calls.{own_calls, AreAllCalls};
ghost use Rattle.thread_cell.specs.Closings.{AreReplayed};
ghost use Rattle.trial_cell.specs.Answers.{GoesOn};
ghost use Rattle.trial_cell.specs.Tallies.{AreTallied};

use crate::locked::Locked;
use crate::tally::Tally;
use std::alloc::Global;
use std::sync::{Mutex, Wait};
use std::thread::{Threads, join};
use thread_cell::closing::{Closed, close};
use thread_cell::name::Name;
use thread_cell::session::Session;
use thread_cell::spot::{Spot0, Spot1};
use thread_cell::table::CellTable;
use thread_cell::unnamed::{Cells, Unnamed};
use thread_machine::machine::Machine;

/// What a client did: its session, the stamp of its second call, and the first total that it then saw.
#[derive(Drop)]
pub struct Played {
    pub session: Session<Tally>,
    pub stamp: u64,
    pub seen: u64,
}

/// The closed table, with what each of two clients did.
#[derive(Drop)]
pub struct Ran {
    pub closed: Closed<Tally>,
    pub stamps: (u64, u64),
    pub seen: (u64, u64),
}

// Adds to both tallies, and looks at the first.
fn play<N: Name>(
    rt: &impl Wait,
    table: &CellTable<Tally, N>,
    one: &Mutex<Locked<N, Spot0>>,
    two: &Mutex<Locked<N, Spot1>>,
    mut session: Session<Tally>,
    amount: u64,
) -> Option<Played>
    requires { session.seen.table ≡ N.table }
    ensures { IfSome result (λ played. GoesOn session played.session) }
{
    let first = one.lock(rt).add(table, &mut session, amount).ok()?;
    let second = two.lock(rt).add(table, &mut session, first.output).ok()?;
    let seen = one.lock(rt).look(table, &mut session);
    Some(Played {
        session,
        stamp: second.stamp,
        seen,
    })
}

/// Two clients add to two tallies, in a thread each. Then the table is closed.
pub fn by_two<N: Name + Send + Sync, R: Threads + Wait + Sync>(
    rt: &R,
    alloc: Global,
    unnamed: Unnamed<Tally>,
) -> Option<Ran>
    requires { unnamed.table ≡ N.table }
    ensures replayed { IfSome result (λ ran. AreReplayed ⟦<Tally as Machine>⟧ unnamed.opening.machines ran.closed.machines ran.closed.histories) }
    ensures calls { IfSome result (λ ran. AreAllCalls (map own_calls ran.closed.calls.items) ran.closed.histories) }
    ensures tallied { IfSome result (λ ran. AreTallied unnamed.opening.machines ran.closed.machines ran.closed.histories) }
{
    let (cells, mut sessions) = unnamed.named::<N>();
    let Cells {
        table,
        p0,
        p1,
        p2,
        p3,
        p4,
        p5,
        p6,
        p7,
    } = cells;
    let one = Mutex::new(Locked { cell: p0? });
    let two = Mutex::new(Locked { cell: p1? });
    let b = sessions.pop()?;
    let a = sessions.pop()?;
    let (a, b) = join(
        rt,
        || -> Option<Played>
            requires { a.seen.table ≡ N.table }
            ensures { IfSome result (λ played. GoesOn a played.session) }
        { play(rt, &table, &one, &two, a, 5) },
        || -> Option<Played>
            requires { b.seen.table ≡ N.table }
            ensures { IfSome result (λ played. GoesOn b played.session) }
        { play(rt, &table, &one, &two, b, 7) },
    );
    let a = a?;
    let b = b?;
    let stamps = (a.stamp, b.stamp);
    let seen = (a.seen, b.seen);
    sessions.push_reserved(a.session);
    sessions.push_reserved(b.session);
    let cells = Cells {
        table,
        p0: Some(one.into_inner().cell),
        p1: Some(two.into_inner().cell),
        p2,
        p3,
        p4,
        p5,
        p6,
        p7,
    };
    match close(alloc, cells, sessions) {
        Ok(closed) => Some(Ran {
            closed,
            stamps,
            seen,
        }),
        Err(_) => None,
    }
}
