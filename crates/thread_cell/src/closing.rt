ghost use Rattle.std.specs.Prelude.{◌≡◌, map, IfOk, IfErr};
ghost use Rattle.std.specs.List.{All};
ghost use Rattle.thread_cell.specs.Calls.{own_calls, AreAll, AreAllCalls};
ghost use Rattle.thread_cell.specs.Values.{client_calls};
ghost use Rattle.thread_cell.specs.Closings.{AreReplayed, SessionsKnew, CellsKnew, IsWhole};

use crate::calls::OwnCalls;
use crate::cell::Cell;
use crate::ending::take_sessions;
use crate::histories::Histories;
use crate::name::Name;
use crate::session::Session;
use crate::unnamed::Cells;
use std::alloc::{AllocError, Global};
use thread_machine::machine::Machine;
use thread_machine::machines::Machines;

/// What a closed table leaves: the machines, the history of each place, and the calls of each session.
#[derive(Drop)]
pub struct Closed<M: Machine> {
    pub machines: Machines<M>,
    pub histories: Histories<M>,
    pub calls: Vec<OwnCalls>,
}

/// What stays where a table was not closed.
pub type Kept<M, N> = (Cells<M, N>, Vec<Session<M>>, AllocError);

/// Closes a table with all its cells and all its sessions. The calls stand in the order of the sessions.
///
/// # Errors
///
/// There was no memory for the list of calls. Cells and sessions are as they were.
pub fn close<M: Machine, N: Name>(
    alloc: Global,
    cells: Cells<M, N>,
    sessions: Vec<Session<M>>,
) -> Result<Closed<M>, Kept<M, N>>
    requires tables { All (λ s. s.seen.table ≡ N.table) sessions.items }
    requires whole { IsWhole cells }
    requires all { AreAll cells.table.clients (map client_calls sessions.items) }

    // Each machine is the replay of its place's history, and each entry is a call of one of the sessions, once.
    ensures places { IfOk result (λ closed. AreReplayed M.Machine cells.table.machines closed.machines closed.histories) }
    ensures own { IfOk result (λ closed. map own_calls closed.calls.items ≡ map client_calls sessions.items) }
    ensures calls { IfOk result (λ closed. AreAllCalls (map own_calls closed.calls.items) closed.histories) }

    // What sessions and cells had seen are beginnings of the histories.
    ensures sessions { IfOk result (λ closed. SessionsKnew sessions.items closed.histories) }
    ensures cells { IfOk result (λ closed. CellsKnew cells closed.histories) }

    ensures err { IfErr result (λ kept. (kept.0 ≡ cells) × (kept.1 ≡ sessions)) }
{
    let calls = match Vec::with_capacity(alloc, sessions.len()) {
        Ok(calls) => calls,
        Err(error) => return Err((cells, sessions, error)),
    };
    let Cells {
        table,
        p0,
        p1,
        p2,
        p3,
        p4,
        p5,
        p6,
        p7,
    } = cells;
    let mut base = table.seat();
    let calls = take_sessions(&table, &mut base, sessions, calls);
    let (m0, h0) = Cell::end(alloc, p0, &table, &mut base);
    let (m1, h1) = Cell::end(alloc, p1, &table, &mut base);
    let (m2, h2) = Cell::end(alloc, p2, &table, &mut base);
    let (m3, h3) = Cell::end(alloc, p3, &table, &mut base);
    let (m4, h4) = Cell::end(alloc, p4, &table, &mut base);
    let (m5, h5) = Cell::end(alloc, p5, &table, &mut base);
    let (m6, h6) = Cell::end(alloc, p6, &table, &mut base);
    let (m7, h7) = Cell::end(alloc, p7, &table, &mut base);
    table.close(base);
    Ok(Closed {
        machines: Machines {
            p0: m0,
            p1: m1,
            p2: m2,
            p3: m3,
            p4: m4,
            p5: m5,
            p6: m6,
            p7: m7,
        },
        histories: Histories {
            p0: h0,
            p1: h1,
            p2: h2,
            p3: h3,
            p4: h4,
            p5: h5,
            p6: h6,
            p7: h7,
        },
        calls,
    })
}
