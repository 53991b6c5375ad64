use crate::accepting::accept;
use crate::book::{Book, Counts};
use crate::member::Member;
use crate::peer::Peer;
use crate::places::Identities;
use crate::section::Section;
use base_bytes::Memory;
use std::alloc::Global;
use std::marker::Model;
use thread_cell::cell::{Cell, CellError};
use thread_cell::receipt::Receipt;
use thread_cell::session::Session;
use thread_cell::spot::Spot;
use thread_cell::table::CellTable;

/// What lies under the lock of a place: its cell, whose member took what each other one posted to it, in order; and its book,
/// which has what a walk over the cell's history would give.
#[derive(Drop)]
pub struct Locked<M: Member, N: Section, P: Spot> {
    pub(crate) cell: Cell<M, N, P>,
    pub(crate) book: Book,
}

impl<M: Member, N: Section, P: Spot> Model for Locked<M, N, P> {
    ghost use Rattle.thread_cell.specs.Values.{CellParts};
    ghost use Rattle.thread_cell.specs.Lists.{at};
    ghost use Rattle.thread_cluster.specs.Passing.{Hears};
    ghost use Rattle.thread_cluster.specs.Books.{IsBook};

    ghost Value = { CellParts M M.Input M.Fate M.Output M.Refusal };

    ghost view = { λ l. l.cell };

    ghost invariant = { λ l. Hears M.posted M.taken N.ids P.PLACE l.cell.seen.known × IsBook M.posted M.taken N.ids (at l.cell.seen.known P.PLACE) l.book };
}

impl<M: Member, N: Section, P: Spot> Locked<M, N, P> {
    ghost use Rattle.std.specs.Prelude.{◌≡◌, ℕ, ◌≤◌, [], length, drop, Some, IfOk, IfErr, OnOk, OnErr};
    ghost use Rattle.thread_cell.specs.Lists.{at};
    ghost use Rattle.thread_cluster.specs.Passing.{posts, takes, messages, Hears, AreApart, IsNext};
    ghost use Rattle.thread_cluster.specs.Knowing.{Sees, IsAnswered, IsCause, IsShown};
    ghost use Rattle.thread_cluster.specs.Meeting.{AreAlike, HasMet, Took};
    ghost use Rattle.thread_cluster.specs.Turning.{IsCauseSomewhere};
    ghost use Rattle.thread_cluster.specs.Books.{AreIds, IsCounted};

    /// A cell whose place has no entry yet, with the identities of all places.
    pub fn new(alloc: Global, cell: Cell<M, N, P>, ids: &Identities) -> Locked<M, N, P>
        requires empty { at cell.seen.known P.PLACE ≡ [] }
        requires ids { AreIds N.ids ids.now }
        ensures { result ≡ cell }
    {
        let book = Book::new(alloc, ids);
        Locked { cell, book }
    }

    /// The cell.
    pub fn into_cell(self) -> Cell<M, N, P>
        ensures cell { result ≡ self }
        ensures hears { Hears M.posted M.taken N.ids P.PLACE self.seen.known }
    {
        let Locked { cell, book: _ } = self;
        cell
    }

    /// What is always so, told to whoever asks: what the place took of each other one are the first of the other's posts
    /// to it, and its history has at most 16384 entries.
    pub(crate) fn facts(&self)
        ensures hears { Hears M.posted M.taken N.ids P.PLACE self.now.seen.known }
        ensures few { length (at self.now.seen.known P.PLACE) ≤ 16384 }
    {
        self.cell.facts();
    }

    /// How many messages the place posted to each other one, and heard of it. The session and the cell have then seen the
    /// same.
    pub(crate) fn counts(&mut self, table: &CellTable<M, N>, session: &mut Session<M>) -> Counts
        requires { session.old.seen.table ≡ N.table }
        ensures table { session.new.seen.table ≡ N.table }
        ensures sees { Sees session.old session.new }
        ensures counted { IsCounted M.posted M.taken N.ids P.PLACE session.new.seen.known result }
    {
        self.meet(table, session);
        self.cell.facts();
        self.book.counts()
    }

    /// Cell and session have then seen the same.
    pub fn meet(&mut self, table: &CellTable<M, N>, session: &mut Session<M>)
        requires { session.old.seen.table ≡ N.table }
        ensures table { session.new.seen.table ≡ N.table }
        ensures met { HasMet P.PLACE self.old self.new session.old session.new }
    {
        let note = session.note(table);
        self.cell.meet(table, note);
        let note = self.cell.note(table);
        session.meet(table, note);
    }

    /// The member makes a step for an input that takes no message.
    ///
    /// # Errors
    ///
    /// The history is full, the member made no step, or memory was refused. Then no entry was added.
    pub fn call(
        &mut self,
        table: &CellTable<M, N>,
        session: &mut Session<M>,
        input: M::Input,
    ) -> Result<Receipt<M>, CellError<M::Refusal>>
        requires table { session.old.seen.table ≡ N.table }
        requires no_take { (id : ℕ) → M.taken id input ≡ [] }
        ensures table { session.new.seen.table ≡ N.table }
        ensures ok { IfOk result (IsAnswered M.Machine P.PLACE input session.old session.new) }
        ensures err { OnErr result (Sees session.old session.new) }
        ensures cause { IfErr result (IsCause M.Machine P.PLACE input session.new) }
    {
        self.meet(table, session);
        self.cell.facts();
        accept(&mut self.cell, &mut self.book, table, session, input, 8)
    }

    /// The member takes the next message of another one.
    ///
    /// # Errors
    ///
    /// The history is full, the member made no step, or memory was refused. Then no entry was added.
    pub(crate) fn take(
        &mut self,
        table: &CellTable<M, N>,
        session: &mut Session<M>,
        from: &Peer<N>,
        message: M::Message,
    ) -> Result<Receipt<M>, CellError<M::Refusal>>
        requires table { session.old.seen.table ≡ N.table }
        requires apart { AreApart N.ids }
        requires next { IsNext M.posted M.taken N.ids from.now.place message P.PLACE self.old.seen.known }
        requires alike { AreAlike self.old session.old }
        ensures table { session.new.seen.table ≡ N.table }
        ensures ok { OnOk result (Took M.taken N.ids from.now.place P.PLACE self.old self.new session.old session.new) }
        ensures err { OnErr result ((self.new.seen ≡ self.old.seen) × (session.new ≡ session.old)) }
        ensures cause { IfErr result (IsCauseSomewhere M.Machine M.taken M.posted N.ids session.new) }
    {
        let input = M::take(from.id, message);
        self.cell.facts();
        accept(
            &mut self.cell,
            &mut self.book,
            table,
            session,
            input,
            from.place,
        )
    }

    /// What the member shows of what is asked. The session and the cell have then seen the same.
    ///
    /// # Errors
    ///
    /// Memory was refused.
    pub fn look(
        &mut self,
        table: &CellTable<M, N>,
        session: &mut Session<M>,
        question: &M::Question,
    ) -> Result<M::Answer, Memory>
        requires { session.old.seen.table ≡ N.table }
        ensures table { session.new.seen.table ≡ N.table }
        ensures ok { IfOk result (IsShown M.Machine M.Shows P.PLACE question.now session.old session.new) }
        ensures sees { Sees session.old session.new }
    {
        self.meet(table, session);
        self.cell.facts();
        self.cell.machine().look(question)
    }
}
