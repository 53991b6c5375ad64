use crate::beginning::sessions_of;
use crate::cell::Cell;
use crate::name::Name;
use crate::opening::Opening;
use crate::rule::{Known, OneOrder, Place};
use crate::session::Session;
use crate::spot::{Spot0, Spot1, Spot2, Spot3, Spot4, Spot5, Spot6, Spot7};
use crate::table::{CellTable, WORDS};
use atomic_table::Table;
use std::alloc::{AllocError, Global};
use std::marker::Model;
use thread_machine::entry::Entry;
use thread_machine::machine::Machine;
use thread_machine::machines::Machines;

/// Machines, a new table and the memory of its sessions. The table has no name yet by which contracts could tell it.
#[derive(Drop)]
pub struct Unnamed<M: Machine> {
    alloc: Global,
    opening: Opening<M>,
    table: Table<Entry<M>, Known<M>, Opening<M>, OneOrder, Global>,
    seat: Place<M>,
    sessions: Vec<Session<M>>,
}

impl<M: Machine> Model for Unnamed<M> {
    ghost use Rattle.std.specs.Prelude.{◌≡◌, ◌≤◌, [], vec_capacity};
    ghost use Rattle.thread_cell.specs.declared.opening.Opening.{Opening};
    ghost use Rattle.thread_cell.specs.Entries.{places_of, clients_of};
    ghost use Rattle.thread_cell.specs.Views.{beginner};
    ghost use Rattle.thread_cell.specs.Beginnings.{UnnamedParts};

    ghost Value = { UnnamedParts (Opening M M.Input M.Fate M.Output M.Refusal) };

    ghost view = { λ u. record { table = u.table.shared.table_id; opening = u.opening } };

    ghost invariant = { λ u. (u.table.shared.key ≡ u.opening) × (u.table.shared.table_id.words ≡ 144) × (u.table.shared.table_id.slots ≡ 0) × (u.seat.table_id ≡ u.table.shared.table_id) × (u.seat.me ≡ (beginner (places_of u.opening) (clients_of u.opening) u.opening, [])) × (u.sessions.items ≡ []) × (u.opening.clients ≤ vec_capacity u.sessions) };
}

/// A table with its cells: one for each place that has a machine.
#[derive(Drop)]
pub struct Cells<M: Machine, N: Name> {
    pub table: CellTable<M, N>,
    pub p0: Option<Cell<M, N, Spot0>>,
    pub p1: Option<Cell<M, N, Spot1>>,
    pub p2: Option<Cell<M, N, Spot2>>,
    pub p3: Option<Cell<M, N, Spot3>>,
    pub p4: Option<Cell<M, N, Spot4>>,
    pub p5: Option<Cell<M, N, Spot5>>,
    pub p6: Option<Cell<M, N, Spot6>>,
    pub p7: Option<Cell<M, N, Spot7>>,
}

impl<M: Machine> Unnamed<M> {
    ghost use Rattle.std.specs.Prelude.{◌≡◌, ◌≤◌, map, IfOk, IfErr};
    ghost use Rattle.std.specs.List.{All};
    ghost use Rattle.thread_cell.specs.Beginnings.{begun, begun_sessions};
    ghost use Rattle.thread_cell.specs.Calls.{AreAll};
    ghost use Rattle.thread_cell.specs.Values.{client_calls};
    ghost use Rattle.thread_cell.specs.Closings.{IsWhole};

    /// A new table for these machines and so many clients. It takes the memory of their sessions.
    ///
    /// # Errors
    ///
    /// There was no memory. The machines come back as they were.
    pub fn new(
        alloc: Global,
        machines: Machines<M>,
        clients: u32,
    ) -> Result<Unnamed<M>, (Machines<M>, AllocError)>
        requires { (1 ≤ clients) × (clients ≤ 8) }
        ensures ok { IfOk result (λ u. u.opening ≡ record { machines = machines; clients = clients }) }
        ensures err { IfErr result (λ e. e.0 ≡ machines) }
    {
        let opening = Opening { machines, clients };
        let mut sessions = Vec::new(alloc);
        if let Err(error) = sessions.reserve(clients as usize) {
            return Err((opening.machines, error));
        }
        match Table::of_words(alloc, &[0; WORDS], &opening) {
            Ok((table, seat)) => Ok(Unnamed {
                alloc,
                opening,
                table,
                seat,
                sessions,
            }),
            Err(error) => Err((opening.machines, error)),
        }
    }

    /// The table under a name, with a cell for each machine, and a session for each client, by their numbers from 0 on.
    /// Cells and sessions have seen nothing.
    pub fn named<N: Name>(self) -> (Cells<M, N>, Vec<Session<M>>)
        requires { self.table ≡ N.table }
        ensures table { result.0.table ≡ self.opening }
        ensures sessions { result.1.items ≡ begun_sessions N.table self.opening self.opening.clients }
        ensures tables { All (λ s. s.seen.table ≡ N.table) result.1.items }
        ensures whole { IsWhole result.0 }
        ensures all { AreAll self.opening.clients (map client_calls result.1.items) }
        ensures p0 { result.0.p0 ≡ begun N.table self.opening self.opening.machines.p0 }
        ensures p1 { result.0.p1 ≡ begun N.table self.opening self.opening.machines.p1 }
        ensures p2 { result.0.p2 ≡ begun N.table self.opening self.opening.machines.p2 }
        ensures p3 { result.0.p3 ≡ begun N.table self.opening self.opening.machines.p3 }
        ensures p4 { result.0.p4 ≡ begun N.table self.opening self.opening.machines.p4 }
        ensures p5 { result.0.p5 ≡ begun N.table self.opening self.opening.machines.p5 }
        ensures p6 { result.0.p6 ≡ begun N.table self.opening self.opening.machines.p6 }
        ensures p7 { result.0.p7 ≡ begun N.table self.opening self.opening.machines.p7 }
    {
        let Unnamed {
            alloc,
            opening,
            table,
            mut seat,
            sessions,
        } = self;
        let table = CellTable::<M, N>::new(table);
        let Opening { machines, clients } = opening;
        let sessions = sessions_of(alloc, &table, &mut seat, clients, sessions);
        let Machines {
            p0,
            p1,
            p2,
            p3,
            p4,
            p5,
            p6,
            p7,
        } = machines;
        let p0 = Cell::begin(alloc, &table, &mut seat, p0);
        let p1 = Cell::begin(alloc, &table, &mut seat, p1);
        let p2 = Cell::begin(alloc, &table, &mut seat, p2);
        let p3 = Cell::begin(alloc, &table, &mut seat, p3);
        let p4 = Cell::begin(alloc, &table, &mut seat, p4);
        let p5 = Cell::begin(alloc, &table, &mut seat, p5);
        let p6 = Cell::begin(alloc, &table, &mut seat, p6);
        let p7 = Cell::begin(alloc, &table, &mut seat, p7);
        let cells = Cells {
            table,
            p0,
            p1,
            p2,
            p3,
            p4,
            p5,
            p6,
            p7,
        };
        (cells, sessions)
    }
}
