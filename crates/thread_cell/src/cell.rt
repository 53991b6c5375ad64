ghost use Rattle.std.specs.Prelude.{◌≡◌, ◌<◌, IsTrue, vec_len, vec_capacity};

use crate::name::Name;
use crate::note::Note;
use crate::reading::Steps;
use crate::receipt::Receipt;
use crate::rule::Place;
use crate::session::Session;
use crate::spot::Spot;
use crate::table::CellTable;
use std::alloc::Global;
use std::marker::{Model, PhantomData};
use std::sync::ledger::Ledger;
use thread_machine::entry::Entry;
use thread_machine::machine::Machine;

/// The greatest number of entries of a history.
pub const MOST: usize = 16384;

/// A history begins with room for so many entries.
const PIECE: usize = 1024;

/// Why a call was not made.
#[derive(Drop)]
pub enum CellError<R> {
    /// The history has `MOST` entries.
    CellFull,
    /// The machine made no step.
    Refused(R),
    /// There was no memory for the entry.
    Memory,
}

/// A machine with its history, at a place of a table, and what the place has seen of all others.
#[derive(Drop)]
pub struct Cell<M: Machine, N: Name, P: Spot> {
    machine: M,
    history: Vec<Entry<M>>,
    clock: u64,
    seat: Place<M>,
    of: PhantomData<(N, P)>,
}

impl<M: Machine, N: Name, P: Spot> Model for Cell<M, N, P> {
    ghost use Rattle.std.specs.Prelude.{◌≡◌};
    ghost use Rattle.thread_cell.specs.Values.{CellParts, seen_by, IsCell};

    ghost Value = { CellParts M M.Input M.Fate M.Output M.Refusal };

    ghost view = { λ c. record { seen = seen_by c.seat.table_id c.seat.me.0 c.clock; machine = c.machine } };

    ghost invariant = { λ c. (c.seat.table_id ≡ N.table) × IsCell M.Machine P.PLACE c.machine c.history.items c.clock c.seat.me };
}

impl<M: Machine, N: Name, P: Spot> Cell<M, N, P> {
    ghost use Rattle.thread_cell.specs.Beginnings.{Opens, places_left, begun};
    ghost use Rattle.thread_machine.specs.Machines.{machine_at};
    ghost use Rattle.std.specs.Prelude.{◌≡◌, ℕ, ◌+◌, ◌<◌, ◌≤◌, max, [], ◌∷◌, length, is_some, slice_get, Some, None, Err, ◌↔◌, ◌⊎◌, IfOk, IfErr, OnErr};
    ghost use mathlib.Core.List.{IsPrefix};
    ghost use Rattle.thread_cell.specs.Lists.{at, longer_each};
    ghost use Rattle.thread_cell.specs.Views.{IsLive};
    ghost use Rattle.thread_cell.specs.Stamps.{Rises, IsTimed};
    ghost use Rattle.thread_cell.specs.Values.{Accepts, Began};
    ghost use Rattle.thread_cell.specs.Endings.{Gathers};
    ghost use Rattle.thread_cell.specs.Closings.{Takes, GivesUp};

    // The cell of a place that has a machine, with the right to stand for the place.
    pub(crate) fn begin(
        alloc: Global,
        table: &CellTable<M, N>,
        seat: &mut Place<M>,
        machine: Option<M>,
    ) -> Option<Cell<M, N, P>>
        requires place { P.PLACE < 8 }
        requires table { seat.old.table_id ≡ N.table }
        requires machine { machine_at table.now.machines P.PLACE ≡ machine }
        requires seat { Opens table.now (places_left table.now P.PLACE) [] seat.old.me }
        ensures cell { result ≡ begun N.table table.now machine }
        ensures table { seat.new.table_id ≡ N.table }
        ensures seat { Opens table.now (places_left table.now (P.PLACE + 1)) [] seat.new.me }
    {
        let Some(machine) = machine else {
            return None;
        };
        let seat = table.part_place(seat);
        Some(Cell {
            machine,
            history: Vec::new(alloc),
            clock: 0,
            seat,
            of: PhantomData,
        })
    }

    /// The machine.
    pub fn machine(&self) -> &M
        ensures { result.now ≡ self.now.machine }
    {
        &self.machine
    }

    /// What is always so of a cell, told to whoever asks: its machine is a replay of its history from the machine that
    /// the table began with there, stamps rise along the history, and its clock is at least each stamp that it knows.
    pub fn facts(&self)
        ensures timed { IsTimed self.now.seen.known self.now.seen.stamp }
        ensures few { length (at self.now.seen.known P.PLACE) ≤ MOST }
        ensures rises { Rises (at self.now.seen.known P.PLACE) }
        ensures began { Began M.Machine P.PLACE self.now.seen.began (at self.now.seen.known P.PLACE) self.now.machine }
    {
        let _clock = self.clock;
    }

    /// How many entries the history has.
    pub fn length(&self) -> usize
        ensures { result ≡ length (at self.now.seen.known P.PLACE) }
    {
        self.history.len()
    }

    /// The entry at an index of the history. That is a step.
    pub fn entry<L: Ledger>(&self, index: usize, steps: &mut Steps<L>) -> &Entry<M>
        requires { index < length (at self.now.seen.known P.PLACE) }
        ensures entry { slice_get (at self.now.seen.known P.PLACE) index ≡ Some result.now }
        ensures steps { steps.new ≡ steps.old + 1 }
    {
        steps.tick();
        &self.history[index]
    }

    /// The machine, without its history. The table can't be closed after that, since it lacks a cell.
    pub fn into_machine(self) -> M
        ensures { result ≡ self.machine }
    {
        let Cell {
            machine,
            history: _,
            clock: _,
            seat: _,
            of: _,
        } = self;
        machine
    }

    // The machine and its history. The seat takes over the place, and what the cell has seen.
    pub(crate) fn into_parts(
        self,
        table: &CellTable<M, N>,
        base: &mut Place<M>,
    ) -> (M, Vec<Entry<M>>)
        requires table { base.old.table_id ≡ N.table }
        requires live { IsLive base.old.me.0 }
        ensures table { (base.new.table_id ≡ N.table) × (base.new.me.1 ≡ base.old.me.1) }
        ensures machine { result.0 ≡ self.machine }
        ensures history { result.1.items ≡ at self.seen.known P.PLACE }
        ensures base { Gathers (P.PLACE ∷ []) [] self.seen.known base.old.me.0 base.new.me.0 }
        ensures rises { Rises result.1.items }
        ensures began { self.seen.began ≡ base.old.me.0.began }
        ensures replay { Began M.Machine P.PLACE base.old.me.0.began result.1.items result.0 }
    {
        let Cell {
            machine,
            history,
            clock: _,
            seat,
            of: _,
        } = self;
        table.meet(base, seat);
        (machine, history)
    }

    // The same of a place that may have no machine.
    pub(crate) fn end(
        alloc: Global,
        cell: Option<Cell<M, N, P>>,
        table: &CellTable<M, N>,
        base: &mut Place<M>,
    ) -> (Option<M>, Vec<Entry<M>>)
        requires table { base.old.table_id ≡ N.table }
        requires began { base.old.me.0.began ≡ Some table.now }
        requires given { is_some cell ≡ is_some (machine_at table.now.machines P.PLACE) }
        ensures table { base.new.table_id ≡ N.table }
        ensures began { base.new.me.0.began ≡ Some table.now }
        ensures takes { Takes M.Machine P.PLACE (machine_at table.now.machines P.PLACE) result.0 result.1.items base.old.me.0 base.new.me.0 }
        ensures gives { GivesUp P.PLACE cell result.1.items base.new.me.0.known }
    {
        match cell {
            Some(cell) => {
                let (machine, history) = cell.into_parts(table, base);
                (Some(machine), history)
            }
            None => (None, Vec::new(alloc)),
        }
    }

    /// A copy of what the cell has seen, with its clock.
    pub fn note(&mut self, table: &CellTable<M, N>) -> Note<M>
        ensures note { result ≡ self.old.seen }
        ensures table { result.table ≡ N.table }
        ensures same { self.new ≡ self.old }
    {
        let seat = table.copy(&mut self.seat);
        Note {
            seat,
            stamp: self.clock,
        }
    }

    /// The cell has then seen what the note had, too. Its clock becomes the greater of both.
    pub fn meet(&mut self, table: &CellTable<M, N>, note: Note<M>)
        requires { note.table ≡ N.table }
        ensures machine { self.new.machine ≡ self.old.machine }
        ensures history { at self.new.seen.known P.PLACE ≡ at self.old.seen.known P.PLACE }
        ensures began { (self.new.seen.began ≡ self.old.seen.began) × (note.began ≡ self.old.seen.began) }
        ensures known { self.new.seen.known ≡ longer_each self.old.seen.known note.known }
        ensures knew { (p : ℕ) → IsPrefix (at self.old.seen.known p) (at self.new.seen.known p) × IsPrefix (at note.known p) (at self.new.seen.known p) }
        ensures clock { self.new.seen.stamp ≡ max self.old.seen.stamp note.stamp }
    {
        let Note { seat, stamp } = note;
        table.meet(&mut self.seat, seat);
        self.clock = self.clock.max(stamp);
    }

    /// Makes a step for a session's client, and adds its entry to the history. Cell and session have then seen what
    /// either had seen, and the entry, whose stamp is one more than the greater of both clocks.
    ///
    /// # Errors
    ///
    /// The history is full, the machine made no step, or there was no memory. Then nothing was added, and the input is
    /// dropped.
    pub fn accept(
        &mut self,
        table: &CellTable<M, N>,
        session: &mut Session<M>,
        input: M::Input,
    ) -> Result<Receipt<M>, CellError<M::Refusal>>
        requires { session.old.seen.table ≡ N.table }
        ensures ok { IfOk result (Accepts M.Machine P.PLACE input self.old session.old self.new session.new) }
        ensures table { session.new.seen.table ≡ N.table }
        ensures full { (result ≡ Err CellError.CellFull) ↔ (length (at self.old.seen.known P.PLACE) ≡ MOST) }
        ensures refused { (refusal : M.Refusal) → result ≡ Err (CellError.Refused refusal) → M.MayRefuse self.old.machine input refusal × M.IsUnchanged self.old.machine self.new.machine }
        ensures unmade { (result ≡ Err CellError.CellFull) ⊎ (result ≡ Err CellError.Memory) → self.new ≡ self.old }
        ensures err { OnErr result ((self.new.seen ≡ self.old.seen) × (session.new ≡ session.old)) }
    {
        let place = P::PLACE;
        let index = self.history.len();
        if index >= MOST {
            return Err(CellError::CellFull);
        }
        if !make_room(&mut self.history, &mut session.calls) {
            return Err(CellError::Memory);
        }
        let (fate, output, answer) = match self.machine.step(&input) {
            Ok(made) => made,
            Err(refusal) => return Err(CellError::Refused(refusal)),
        };
        let stamp = self.clock.max(session.stamp) + 1;
        let entry = Entry::new(input, fate, output, stamp, session.number);
        table.enter(
            place,
            &mut self.seat,
            &mut self.history,
            &mut session.seat,
            &mut session.calls,
            entry,
        );
        self.clock = stamp;
        session.stamp = stamp;
        Ok(Receipt {
            place,
            index,
            stamp,
            output: answer,
        })
    }
}

// Takes the memory of an entry more and of a call more, where there is none, and tells whether it was there.
fn make_room<E>(history: &mut Vec<E>, calls: &mut Vec<(usize, usize)>) -> bool
    ensures history { history.new.items ≡ history.old.items }
    ensures calls { calls.new.items ≡ calls.old.items }
    ensures room { IsTrue result → (vec_len history.new < vec_capacity history.new) × (vec_len calls.new < vec_capacity calls.new) }
{
    make_place(history) && make_place(calls)
}

// Takes the memory of an item more, where there is none, and tells whether it was there. It is taken in pieces: the first has
// room for `PIECE` items, or for one where there is no memory for as many, and each further one for at least as many as there are.
fn make_place<X>(items: &mut Vec<X>) -> bool
    ensures same { items.new.items ≡ items.old.items }
    ensures room { IsTrue result → vec_len items.new < vec_capacity items.new }
{
    if items.len() < items.capacity() {
        return true;
    }
    if items.is_empty() && items.reserve(PIECE).is_ok() {
        return true;
    }
    items.reserve(1).is_ok()
}
