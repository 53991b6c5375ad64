ghost use Rattle.std.specs.Prelude.{◌≡◌, ◌+◌, ◌-◌, ◌<◌, ◌≤◌, length, IfOk, IfErr, OnErr};
ghost use Rattle.thread_cell.specs.Lists.{at};
ghost use Rattle.thread_cluster.specs.Passing.{AreApart, posts, takes};
ghost use Rattle.thread_cluster.specs.Books.{WereCounted, unheard};
ghost use Rattle.thread_cluster.specs.Sites.{place_of};
ghost use Rattle.thread_cluster.specs.Turning.{HasBegun, HasTurned, HasTurnedAll, IsCauseSomewhere};
ghost use Rattle.thread_cluster.specs.Counted.{TurnsCounted, TellsCounted, ReadsOfOne, ReadsOfAll};

use crate::any_site::AnySite;
use crate::book::Counts;
use crate::cluster::Cluster;
use crate::counting::first_unheard;
use crate::member::Member;
use crate::section::Section;
use std::alloc::Global;
use std::sync::Wait;
use std::sync::ledger::Ledger;
use thread_cell::cell::CellError;
use thread_cell::reading::Steps;
use thread_cell::session::Session;
use thread_cell::table::CellTable;

/// The receiver, which took so many of the sender's messages, takes those behind them. The sender is locked to copy them, and
/// then the receiver, which may have taken more meanwhile. No two locks are held at once.
fn hear_from<M: Member, N: Section, L: Ledger>(
    rt: &impl Wait,
    alloc: Global,
    table: &CellTable<M, N>,
    sender: &AnySite<'_, M, N>,
    receiver: &AnySite<'_, M, N>,
    number: usize,
    session: &mut Session<M>,
    steps: &mut Steps<L>,
) -> Result<usize, CellError<M::Refusal>>
    requires table { session.old.seen.table ≡ N.table }
    requires apart { AreApart N.ids }
    requires number { number ≤ length (takes M.taken (N.ids (place_of sender.now)) (at session.old.seen.known (place_of receiver.now))) }
    requires few { number ≤ 16384 }
    ensures table { session.new.seen.table ≡ N.table }
    ensures few { IfOk result (λ n. n ≤ 16384) }
    ensures ok { IfOk result (λ n. HasTurned M.taken M.posted N.ids (place_of sender.now) (place_of receiver.now) n session.old session.new) }
    ensures err { OnErr result (HasBegun M.taken N.ids session.old session.new) }
    ensures cause { IfErr result (IsCauseSomewhere M.Machine M.taken M.posted N.ids session.new) }
    ensures steps { steps.new ≤ steps.old + (length (posts M.posted (N.ids (place_of receiver.now)) (at session.new.seen.known (place_of sender.now))) - number) }
{
    let from = sender.peer();
    let to = receiver.peer();
    match sender.copy_posts(rt, table, session, alloc, to, number, steps) {
        Ok(copies) => receiver.hear(rt, table, session, from, number, copies),
        Err(_) => Err(CellError::Memory),
    }
}

impl<M: Member, N: Section> Cluster<M, N> {
    /// The member at a place, if there is one and it is another than the sender, takes what the sender posted to it and it has
    /// not heard, by the numbers of all books.
    fn hear_at<L: Ledger>(
        &self,
        rt: &impl Wait,
        sender: &AnySite<'_, M, N>,
        to: usize,
        all: &[Counts],
        session: &mut Session<M>,
        steps: &mut Steps<L>,
    ) -> Result<usize, CellError<M::Refusal>>
        requires table { session.old.seen.table ≡ N.table }
        requires to { to < 8 }
        requires count { length all.now ≡ 8 }
        requires counted { WereCounted M.posted M.taken N.ids all.now session.old.seen.known }
        ensures table { session.new.seen.table ≡ N.table }
        ensures few { IfOk result (λ n. n ≤ 16384) }
        ensures ok { IfOk result (λ n. TurnsCounted M.taken M.posted N.ids all.now (place_of sender.now) to n session.old session.new) }
        ensures err { OnErr result (HasBegun M.taken N.ids session.old session.new) }
        ensures cause { IfErr result (IsCauseSomewhere M.Machine M.taken M.posted N.ids session.new) }
        ensures steps { ReadsOfOne M.taken M.posted N.ids all.now (place_of sender.now) to steps.old steps.new session.old session.new }
    {
        let Some(receiver) = self.site(to) else {
            return Ok(0);
        };
        let _at = receiver.peer();
        let from = sender.peer().place;
        if from == to {
            return Ok(0);
        }
        let Some(number) = first_unheard(all, from, to) else {
            return Ok(0);
        };
        self.facts();
        hear_from(
            rt,
            self.alloc,
            &self.table,
            sender,
            &receiver,
            number,
            session,
            steps,
        )
    }

    /// Each other member takes what the one at a place posted to it and it has not heard, by the numbers of all books.
    fn tell<L: Ledger>(
        &self,
        rt: &impl Wait,
        from: usize,
        all: &[Counts],
        session: &mut Session<M>,
        steps: &mut Steps<L>,
    ) -> Result<usize, CellError<M::Refusal>>
        requires table { session.old.seen.table ≡ N.table }
        requires count { length all.now ≡ 8 }
        requires counted { WereCounted M.posted M.taken N.ids all.now session.old.seen.known }
        ensures table { session.new.seen.table ≡ N.table }
        ensures few { IfOk result (λ n. n ≤ 131072) }
        ensures ok { IfOk result (λ n. TellsCounted M.taken M.posted N.ids all.now from n session.old session.new) }
        ensures err { OnErr result (HasBegun M.taken N.ids session.old session.new) }
        ensures cause { IfErr result (IsCauseSomewhere M.Machine M.taken M.posted N.ids session.new) }
        ensures steps { ReadsOfAll M.taken M.posted N.ids all.now from steps.old steps.new session.old session.new }
    {
        let Some(sender) = self.site(from) else {
            return Ok(0);
        };
        let mut taken = 0;
        for to in 0..8 {
            taken += self.hear_at(rt, &sender, to, all, session, steps)?;
        }
        Ok(taken)
    }

    /// Each member takes what each other one posted to it. Each is locked once to read the numbers of its book; then, for each
    /// pair of which these tell that there is something to hear, the sender and the receiver once more: the senders in the
    /// order of their places, and for each the receivers in the order of theirs. Answers how many messages were taken.
    ///
    /// A step is an entry that is read. There are at most as many as messages, in what the session then knows, that weren't
    /// heard in what it knew before.
    ///
    /// # Errors
    ///
    /// A history is full, a member made no step, or memory was refused. What was taken stands.
    pub fn turn_all<L: Ledger>(
        &self,
        rt: &impl Wait,
        session: &mut Session<M>,
        steps: &mut Steps<L>,
    ) -> Result<usize, CellError<M::Refusal>>
        requires { session.old.seen.table ≡ N.table }
        ensures table { session.new.seen.table ≡ N.table }
        ensures few { IfOk result (λ n. n ≤ 1048576) }
        ensures ok { IfOk result (λ n. HasTurnedAll M.taken M.posted N.ids n session.old session.new) }
        ensures err { OnErr result (HasBegun M.taken N.ids session.old session.new) }
        ensures cause { IfErr result (IsCauseSomewhere M.Machine M.taken M.posted N.ids session.new) }
        ensures steps { steps.new ≤ steps.old + unheard M.posted M.taken N.ids session.old.seen.known session.new.seen.known }
    {
        let Ok(all) = self.all_counts(rt, session) else {
            return Err(CellError::Memory);
        };
        let counts = all.as_slice();
        self.facts();
        let mut taken = 0;
        for from in 0..8 {
            taken += self.tell(rt, from, counts, session, steps)?;
        }
        Ok(taken)
    }
}
