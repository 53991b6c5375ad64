ghost use Rattle.std.specs.Prelude.{◌≡◌, ℕ, ◌≤◌, ◌+◌, ◌-◌, [], length, drop, IfOk, IfErr, OnErr};
ghost use Rattle.thread_cell.specs.Lists.{at};
ghost use Rattle.thread_cluster.specs.Passing.{posts, takes, messages, AreApart, AreCopies};
ghost use Rattle.thread_cluster.specs.Knowing.{Sees, IsAnswered, IsCause, IsShown};
ghost use Rattle.thread_cluster.specs.Turning.{HasTaken, HasBegun, IsCauseSomewhere};
ghost use Rattle.thread_cluster.specs.Sites.{place_of};
ghost use Rattle.thread_cluster.specs.Books.{IsCounted};

use crate::book::Counts;
use crate::member::Member;
use crate::peer::Peer;
use crate::section::Section;
use crate::site::Site;
use base_bytes::Memory;
use std::alloc::Global;
use std::collections::VecDeque;
use std::sync::Wait;
use std::sync::ledger::Ledger;
use thread_cell::cell::CellError;
use thread_cell::reading::Steps;
use thread_cell::receipt::Receipt;
use thread_cell::session::Session;
use thread_cell::spot::{Spot0, Spot1, Spot2, Spot3, Spot4, Spot5, Spot6, Spot7};
use thread_cell::table::CellTable;

/// The member at one of the eight places, whichever it is.
#[derive(Drop)]
pub(crate) enum AnySite<'a, M: Member, N: Section> {
    P0(&'a Site<M, N, Spot0>),
    P1(&'a Site<M, N, Spot1>),
    P2(&'a Site<M, N, Spot2>),
    P3(&'a Site<M, N, Spot3>),
    P4(&'a Site<M, N, Spot4>),
    P5(&'a Site<M, N, Spot5>),
    P6(&'a Site<M, N, Spot6>),
    P7(&'a Site<M, N, Spot7>),
}

impl<'a, M: Member, N: Section> AnySite<'a, M, N> {
    /// Which member it is.
    pub(crate) fn peer(&self) -> &Peer<N>
        ensures { result.now.place ≡ place_of self.now }
    {
        match self {
            AnySite::P0(site) => &site.peer,
            AnySite::P1(site) => &site.peer,
            AnySite::P2(site) => &site.peer,
            AnySite::P3(site) => &site.peer,
            AnySite::P4(site) => &site.peer,
            AnySite::P5(site) => &site.peer,
            AnySite::P6(site) => &site.peer,
            AnySite::P7(site) => &site.peer,
        }
    }

    /// The member makes a step for an input that takes no message.
    ///
    /// # Errors
    ///
    /// No entry was added.
    pub(crate) fn call(
        &self,
        rt: &impl Wait,
        table: &CellTable<M, N>,
        session: &mut Session<M>,
        input: M::Input,
    ) -> Result<Receipt<M>, CellError<M::Refusal>>
        requires table { session.old.seen.table ≡ N.table }
        requires no_take { (id : ℕ) → M.taken id input ≡ [] }
        ensures table { session.new.seen.table ≡ N.table }
        ensures ok { IfOk result (IsAnswered M.Machine (place_of self.now) input session.old session.new) }
        ensures err { OnErr result (Sees session.old session.new) }
        ensures cause { IfErr result (IsCause M.Machine (place_of self.now) input session.new) }
    {
        match self {
            AnySite::P0(site) => site.lock.lock(rt).call(table, session, input),
            AnySite::P1(site) => site.lock.lock(rt).call(table, session, input),
            AnySite::P2(site) => site.lock.lock(rt).call(table, session, input),
            AnySite::P3(site) => site.lock.lock(rt).call(table, session, input),
            AnySite::P4(site) => site.lock.lock(rt).call(table, session, input),
            AnySite::P5(site) => site.lock.lock(rt).call(table, session, input),
            AnySite::P6(site) => site.lock.lock(rt).call(table, session, input),
            AnySite::P7(site) => site.lock.lock(rt).call(table, session, input),
        }
    }

    /// What the member shows of what is asked.
    ///
    /// # Errors
    ///
    /// Memory was refused.
    pub(crate) fn look(
        &self,
        rt: &impl Wait,
        table: &CellTable<M, N>,
        session: &mut Session<M>,
        question: &M::Question,
    ) -> Result<M::Answer, Memory>
        requires { session.old.seen.table ≡ N.table }
        ensures table { session.new.seen.table ≡ N.table }
        ensures ok { IfOk result (IsShown M.Machine M.Shows (place_of self.now) question.now session.old session.new) }
        ensures sees { Sees session.old session.new }
    {
        match self {
            AnySite::P0(site) => site.lock.lock(rt).look(table, session, question),
            AnySite::P1(site) => site.lock.lock(rt).look(table, session, question),
            AnySite::P2(site) => site.lock.lock(rt).look(table, session, question),
            AnySite::P3(site) => site.lock.lock(rt).look(table, session, question),
            AnySite::P4(site) => site.lock.lock(rt).look(table, session, question),
            AnySite::P5(site) => site.lock.lock(rt).look(table, session, question),
            AnySite::P6(site) => site.lock.lock(rt).look(table, session, question),
            AnySite::P7(site) => site.lock.lock(rt).look(table, session, question),
        }
    }

    /// How many messages this member posted to each other one, and heard of it.
    pub(crate) fn counts(
        &self,
        rt: &impl Wait,
        table: &CellTable<M, N>,
        session: &mut Session<M>,
    ) -> Counts
        requires { session.old.seen.table ≡ N.table }
        ensures table { session.new.seen.table ≡ N.table }
        ensures sees { Sees session.old session.new }
        ensures counted { IsCounted M.posted M.taken N.ids (place_of self.now) session.new.seen.known result }
    {
        match self {
            AnySite::P0(site) => site.lock.lock(rt).counts(table, session),
            AnySite::P1(site) => site.lock.lock(rt).counts(table, session),
            AnySite::P2(site) => site.lock.lock(rt).counts(table, session),
            AnySite::P3(site) => site.lock.lock(rt).counts(table, session),
            AnySite::P4(site) => site.lock.lock(rt).counts(table, session),
            AnySite::P5(site) => site.lock.lock(rt).counts(table, session),
            AnySite::P6(site) => site.lock.lock(rt).counts(table, session),
            AnySite::P7(site) => site.lock.lock(rt).counts(table, session),
        }
    }

    /// The messages that this member posted to another one, from a number on. A step is an entry that posted one of them.
    ///
    /// # Errors
    ///
    /// Memory was refused.
    pub(crate) fn copy_posts<L: Ledger>(
        &self,
        rt: &impl Wait,
        table: &CellTable<M, N>,
        session: &mut Session<M>,
        alloc: Global,
        to: &Peer<N>,
        number: usize,
        steps: &mut Steps<L>,
    ) -> Result<VecDeque<M::Message>, Memory>
        requires table { session.old.seen.table ≡ N.table }
        requires few { number ≤ 16384 }
        ensures table { session.new.seen.table ≡ N.table }
        ensures sees { Sees session.old session.new }
        ensures copies { IfOk result (λ copies. copies.items ≡ drop number (messages (posts M.posted (N.ids to.now.place) (at session.new.seen.known (place_of self.now))))) }
        ensures steps { steps.new ≤ steps.old + (length (posts M.posted (N.ids to.now.place) (at session.new.seen.known (place_of self.now))) - number) }
    {
        match self {
            AnySite::P0(site) => site
                .lock
                .lock(rt)
                .copy_posts(table, session, alloc, to, number, steps),
            AnySite::P1(site) => site
                .lock
                .lock(rt)
                .copy_posts(table, session, alloc, to, number, steps),
            AnySite::P2(site) => site
                .lock
                .lock(rt)
                .copy_posts(table, session, alloc, to, number, steps),
            AnySite::P3(site) => site
                .lock
                .lock(rt)
                .copy_posts(table, session, alloc, to, number, steps),
            AnySite::P4(site) => site
                .lock
                .lock(rt)
                .copy_posts(table, session, alloc, to, number, steps),
            AnySite::P5(site) => site
                .lock
                .lock(rt)
                .copy_posts(table, session, alloc, to, number, steps),
            AnySite::P6(site) => site
                .lock
                .lock(rt)
                .copy_posts(table, session, alloc, to, number, steps),
            AnySite::P7(site) => site
                .lock
                .lock(rt)
                .copy_posts(table, session, alloc, to, number, steps),
        }
    }

    /// Takes those of a member's messages that this one did not take yet: of these copies, which begin at a number.
    ///
    /// # Errors
    ///
    /// What was taken stands.
    pub(crate) fn hear(
        &self,
        rt: &impl Wait,
        table: &CellTable<M, N>,
        session: &mut Session<M>,
        from: &Peer<N>,
        number: usize,
        copies: VecDeque<M::Message>,
    ) -> Result<usize, CellError<M::Refusal>>
        requires table { session.old.seen.table ≡ N.table }
        requires apart { AreApart N.ids }
        requires copies { AreCopies number copies.items (posts M.posted (N.ids (place_of self.now)) (at session.old.seen.known from.now.place)) }
        requires number { number ≤ length (takes M.taken (N.ids from.now.place) (at session.old.seen.known (place_of self.now))) }
        ensures table { session.new.seen.table ≡ N.table }
        ensures few { IfOk result (λ n. n ≤ 16384) }
        ensures ok { IfOk result (λ n. HasTaken M.taken M.posted N.ids from.now.place (place_of self.now) (number + length copies.items) n session.old session.new) }
        ensures err { OnErr result (HasBegun M.taken N.ids session.old session.new) }
        ensures cause { IfErr result (IsCauseSomewhere M.Machine M.taken M.posted N.ids session.new) }
    {
        match self {
            AnySite::P0(site) => site
                .lock
                .lock(rt)
                .hear(table, session, from, number, copies),
            AnySite::P1(site) => site
                .lock
                .lock(rt)
                .hear(table, session, from, number, copies),
            AnySite::P2(site) => site
                .lock
                .lock(rt)
                .hear(table, session, from, number, copies),
            AnySite::P3(site) => site
                .lock
                .lock(rt)
                .hear(table, session, from, number, copies),
            AnySite::P4(site) => site
                .lock
                .lock(rt)
                .hear(table, session, from, number, copies),
            AnySite::P5(site) => site
                .lock
                .lock(rt)
                .hear(table, session, from, number, copies),
            AnySite::P6(site) => site
                .lock
                .lock(rt)
                .hear(table, session, from, number, copies),
            AnySite::P7(site) => site
                .lock
                .lock(rt)
                .hear(table, session, from, number, copies),
        }
    }
}
