use crate::calls::OwnCalls;
use crate::name::Name;
use crate::note::Note;
use crate::rule::Place;
use crate::table::CellTable;
use std::marker::Model;
use thread_machine::machine::Machine;

/// A client's side: its number, its own calls, and what it has seen, with the greatest stamp of that.
#[derive(Drop)]
pub struct Session<M: Machine> {
    pub(crate) number: u32,
    pub(crate) calls: Vec<(usize, usize)>,
    pub(crate) stamp: u64,
    pub(crate) seat: Place<M>,
}

impl<M: Machine> Model for Session<M> {
    ghost use Rattle.thread_cell.specs.Values.{ClientParts, seen_by, IsSession};

    ghost Value = { ClientParts M M.Input M.Fate M.Output M.Refusal };

    ghost view = { λ s. record { seen = seen_by s.seat.table_id s.seat.me.0 s.stamp; number = s.number; calls = s.calls.items } };

    ghost invariant = { λ s. IsSession s.number s.calls.items s.stamp s.seat.me };
}

impl<M: Machine> Session<M> {
    ghost use Rattle.std.specs.Prelude.{◌≡◌, ℕ, [], ◌∷◌, max};
    ghost use Rattle.thread_cell.specs.Views.{IsLive};
    ghost use Rattle.thread_cell.specs.Values.{client_calls};
    ghost use Rattle.thread_cell.specs.Calls.{own_calls};
    ghost use Rattle.thread_cell.specs.Endings.{Gathers};
    ghost use Rattle.thread_cell.specs.Stamps.{IsTimed};
    ghost use Rattle.thread_cell.specs.Lists.{longer_each, at};
    ghost use mathlib.Core.List.{IsPrefix};

    /// The session has then seen what the note had, too. Its stamp becomes the greater of both.
    pub fn meet<N: Name>(&mut self, table: &CellTable<M, N>, note: Note<M>)
        requires table { (self.old.seen.table ≡ N.table) × (note.table ≡ N.table) }
        ensures table { self.new.seen.table ≡ N.table }
        ensures began { (self.new.seen.began ≡ self.old.seen.began) × (note.began ≡ self.old.seen.began) }
        ensures known { self.new.seen.known ≡ longer_each self.old.seen.known note.known }
        ensures knew { (p : ℕ) → IsPrefix (at self.old.seen.known p) (at self.new.seen.known p) × IsPrefix (at note.known p) (at self.new.seen.known p) }
        ensures stamp { self.new.seen.stamp ≡ max self.old.seen.stamp note.stamp }
        ensures client { (self.new.number ≡ self.old.number) × (self.new.calls ≡ self.old.calls) }
    {
        let Note { seat, stamp } = note;
        table.meet(&mut self.seat, seat);
        self.stamp = self.stamp.max(stamp);
    }

    /// A copy of what the session has seen, with its stamp.
    pub fn note<N: Name>(&mut self, table: &CellTable<M, N>) -> Note<M>
        requires { self.old.seen.table ≡ N.table }
        ensures note { result ≡ self.old.seen }
        ensures table { result.table ≡ N.table }
        ensures same { self.new ≡ self.old }
    {
        let seat = table.copy(&mut self.seat);
        Note {
            seat,
            stamp: self.stamp,
        }
    }

    /// What is always so of a session, told to whoever asks: its stamp is at least each stamp that it knows.
    pub fn facts(&self)
        ensures timed { IsTimed self.now.seen.known self.now.seen.stamp }
    {
        let _stamp = self.stamp;
    }

    // The client's own calls. The seat takes over the client, and what the session has seen.
    pub(crate) fn into_calls<N: Name>(
        self,
        table: &CellTable<M, N>,
        base: &mut Place<M>,
    ) -> OwnCalls
        requires table { (base.old.table_id ≡ N.table) × (self.seen.table ≡ N.table) }
        requires live { IsLive base.old.me.0 }
        ensures table { (base.new.table_id ≡ N.table) × (base.new.me.1 ≡ base.old.me.1) }
        ensures calls { own_calls result ≡ client_calls self }
        ensures base { Gathers [] (client_calls self ∷ []) self.seen.known base.old.me.0 base.new.me.0 }
    {
        let Session {
            number,
            calls,
            stamp: _,
            seat,
        } = self;
        table.meet(base, seat);
        OwnCalls {
            client: number,
            calls,
        }
    }
}
