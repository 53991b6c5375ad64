ghost use Rattle.std.specs.Prelude.{◌≡◌, ◌+◌, ◌-◌, ◌≤◌, length, drop};

use crate::book::first_posting;
use crate::locked::Locked;
use crate::member::Member;
use crate::peer::Peer;
use crate::section::Section;
use base_bytes::Memory;
use std::alloc::Global;
use std::collections::VecDeque;
use std::sync::ledger::Ledger;
use thread_cell::cell::CellError;
use thread_cell::reading::Steps;
use thread_cell::session::Session;
use thread_cell::spot::Spot;
use thread_cell::table::CellTable;

impl<M: Member, N: Section, P: Spot> Locked<M, N, P> {
    ghost use Rattle.std.specs.Prelude.{IfOk, IfErr, OnErr};
    ghost use Rattle.thread_cell.specs.Lists.{at};
    ghost use Rattle.thread_cluster.specs.Passing.{posts, takes, messages, AreApart, AreCopies};
    ghost use Rattle.thread_cluster.specs.Knowing.{Sees};
    ghost use Rattle.thread_cluster.specs.Meeting.{AreAlike};
    ghost use Rattle.thread_cluster.specs.Turning.{HasTaken, HasTakenMore, HasBegun, IsCauseSomewhere};

    // How many messages of a member the place took.
    fn count(&self, from: &Peer<N>) -> usize
        ensures { result ≡ length (takes M.taken (N.ids from.now.place) (at self.now.seen.known P.PLACE)) }
    {
        let counts = self.book.counts();
        counts.heard[from.place]
    }

    // The messages that the place posted to a member, from a number on. A step is an entry that posted one of them.
    fn copies<L: Ledger>(
        &self,
        alloc: Global,
        to: &Peer<N>,
        number: usize,
        steps: &mut Steps<L>,
    ) -> Result<VecDeque<M::Message>, Memory>
        requires { number ≤ 16384 }
        ensures copies { IfOk result (λ copies. copies.items ≡ drop number (messages (posts M.posted (N.ids to.now.place) (at self.now.seen.known P.PLACE)))) }
        ensures steps { steps.new ≤ steps.old + (length (posts M.posted (N.ids to.now.place) (at self.now.seen.known P.PLACE)) - number) }
    {
        let page = self.book.page(to.place);
        let postings = page.postings.as_slice();
        let mut copies = VecDeque::new(alloc);
        if page.posted <= number {
            return Ok(copies);
        }
        for k in first_posting(postings, number)..postings.len() {
            let (index, before) = postings[k];
            let skip = number.saturating_sub(before);
            let entry = self.cell.entry(index, steps);
            M::copy_posted(&entry.output, alloc, to.id, skip, &mut copies)?;
        }
        Ok(copies)
    }

    // Takes these messages of a member, which are the next of those that it posted.
    fn take_all(
        &mut self,
        table: &CellTable<M, N>,
        session: &mut Session<M>,
        from: &Peer<N>,
        mut copies: VecDeque<M::Message>,
    ) -> Result<usize, CellError<M::Refusal>>
        requires table { session.old.seen.table ≡ N.table }
        requires apart { AreApart N.ids }
        requires alike { AreAlike self.old session.old }
        requires copies { AreCopies (length (takes M.taken (N.ids from.now.place) (at self.old.seen.known P.PLACE))) copies.items (posts M.posted (N.ids P.PLACE) (at self.old.seen.known from.now.place)) }
        ensures table { session.new.seen.table ≡ N.table }
        ensures few { IfOk result (λ n. n ≤ 16384) }
        ensures ok { IfOk result (λ n. HasTakenMore M.taken M.posted N.ids from.now.place P.PLACE self.old.seen.known (length copies.items) n session.old session.new) }
        ensures err { OnErr result (HasBegun M.taken N.ids session.old session.new) }
        ensures cause { IfErr result (IsCauseSomewhere M.Machine M.taken M.posted N.ids session.new) }
    {
        let mut taken = 0;
        while let Some(message) = copies.pop_front() {
            self.take(table, session, from, message)?;
            taken += 1;
        }
        self.facts();
        Ok(taken)
    }

    /// Copies the messages that the place posted to a member, from a number on. The session and the cell have then seen
    /// the same. A step is an entry that posted one of them.
    ///
    /// # Errors
    ///
    /// Memory was refused.
    pub fn copy_posts<L: Ledger>(
        &mut self,
        table: &CellTable<M, N>,
        session: &mut Session<M>,
        alloc: Global,
        to: &Peer<N>,
        number: usize,
        steps: &mut Steps<L>,
    ) -> Result<VecDeque<M::Message>, Memory>
        requires table { session.old.seen.table ≡ N.table }
        requires few { number ≤ 16384 }
        ensures table { session.new.seen.table ≡ N.table }
        ensures sees { Sees session.old session.new }
        ensures copies { IfOk result (λ copies. copies.items ≡ drop number (messages (posts M.posted (N.ids to.now.place) (at session.new.seen.known P.PLACE)))) }
        ensures steps { steps.new ≤ steps.old + (length (posts M.posted (N.ids to.now.place) (at session.new.seen.known P.PLACE)) - number) }
    {
        self.meet(table, session);
        self.copies(alloc, to, number, steps)
    }

    /// Takes those of a member's messages that the place did not take yet: of these copies, which begin at a number.
    ///
    /// # Errors
    ///
    /// The history is full, the member made no step, or memory was refused. What was taken stands.
    pub fn hear(
        &mut self,
        table: &CellTable<M, N>,
        session: &mut Session<M>,
        from: &Peer<N>,
        number: usize,
        copies: VecDeque<M::Message>,
    ) -> Result<usize, CellError<M::Refusal>>
        requires table { session.old.seen.table ≡ N.table }
        requires apart { AreApart N.ids }
        requires copies { AreCopies number copies.items (posts M.posted (N.ids P.PLACE) (at session.old.seen.known from.now.place)) }
        requires number { number ≤ length (takes M.taken (N.ids from.now.place) (at session.old.seen.known P.PLACE)) }
        ensures table { session.new.seen.table ≡ N.table }
        ensures few { IfOk result (λ n. n ≤ 16384) }
        ensures ok { IfOk result (λ n. HasTaken M.taken M.posted N.ids from.now.place P.PLACE (number + length copies.items) n session.old session.new) }
        ensures err { OnErr result (HasBegun M.taken N.ids session.old session.new) }
        ensures cause { IfErr result (IsCauseSomewhere M.Machine M.taken M.posted N.ids session.new) }
    {
        self.meet(table, session);
        let heard = self.count(from);
        let copies = skipped(copies, heard - number);
        self.take_all(table, session, from, copies)
    }
}

// The messages without so many of the first.
fn skipped<X: Drop>(mut messages: VecDeque<X>, count: usize) -> VecDeque<X>
    ensures { result.items ≡ drop count messages.items }
{
    for _i in 0..count {
        let _first = messages.pop_front();
    }
    messages
}
