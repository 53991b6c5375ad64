ghost use Rattle.std.specs.Prelude.{◌≡◌, IfOk, filter, length};
ghost use Rattle.model_members.specs.View.{identities_of};
ghost use Rattle.model_members.specs.Script.{is_blocked, install_last, tick};
ghost use Rattle.member_node.specs.Replies.{meant_outcome};
ghost use Rattle.member_node.specs.Steps.{replication};
ghost use Rattle.script_reading.specs.declared.script.Step.TheVariants as form;
ghost use Rattle.member_views.specs.Sound.{last_view};
ghost use Rattle.world_members.specs.declared.event.Answer.TheVariants as answer;
ghost use Rattle.world_places.specs.Places.{member_of};
ghost use Rattle.world_members.specs.Settling.{met_full, sent_in, blocked_in, last_blocked, is_behind, installs, SettlesOr};
ghost use Rattle.world_members.specs.Steps.{MakesStep};

use crate::event::{Answer, Event, Events, Head};
use crate::world::{World, line};
use base_bytes::{Items, Memory};
use base_vectors::Id;
use data_lattice::SpelledData;
use member_keeper::Keeper;
use member_node::{KeyOutcome, Outcome, Reply};
use model_kinds::Op;
use script_reading::Ask;

/// Whether a member was full.
pub(crate) fn met_full(events: &[Event]) -> bool
    ensures { result ≡ met_full events.now }
{
    events
        .iter()
        .any(|event| matches!(event.answer, Answer::HistoryFull))
}

/// How many messages were sent. More than a `usize` counts have no room in memory.
pub(crate) fn sent_in(events: &[Event]) -> Result<usize, Memory>
    ensures { IfOk result (λ sent. sent ≡ sent_in events.now) }
{
    let mut sent = 0_usize;
    for event in events {
        let Some(sum) = sent.checked_add(event.sent.len()) else {
            return Err(Memory);
        };
        sent = sum;
    }
    Ok(sent)
}

/// How many outcomes of a tick are blocked.
fn blocked_among(outcomes: &[KeyOutcome]) -> usize
    ensures { result ≡ length (filter (λ told. is_blocked (meant_outcome told.outcome)) outcomes.now) }
{
    outcomes
        .iter()
        .filter(|told| matches!(told.outcome, Outcome::Blocked { .. }))
        .count()
}

/// How many outcomes of an answer are blocked.
fn blocked_in(answer: &Answer) -> usize
    ensures { result ≡ blocked_in answer.now }
{
    match answer {
        Answer::Reply(reply) => blocked_in_reply(reply),
        _ => 0,
    }
}

/// How many outcomes of a reply are blocked.
fn blocked_in_reply(reply: &Reply) -> usize
    ensures { result ≡ blocked_in (answer.Reply reply.now) }
{
    match reply {
        Reply::Ticked(outcomes) => blocked_among(outcomes.as_slice()),
        Reply::TickedStoreFailed(outcomes) => blocked_among(outcomes.as_slice()),
        _ => 0,
    }
}

/// How many outcomes of the last event are blocked.
fn last_blocked(events: &[Event]) -> usize
    ensures { result ≡ last_blocked events.now }
{
    match events.last() {
        Some(event) => blocked_in(&event.answer),
        None => 0,
    }
}

impl<T: SpelledData<Op = Op>, K: Keeper + Drop> World<T, K> {
    /// Each member whose view is older takes up the last one. Then two sweeps are made, a tick of the leader, a sweep, a tick
    /// and a sweep: in a sweep each other member gossips to the leader, and the messages of this exchange are delivered as they
    /// are sent. Nothing is done any more once a member was full. Where memory is refused, what was done stands.
    pub(crate) fn settle(&mut self) -> Result<Event, Memory>
        ensures { MakesStep T.SpelledData.own form.Settle self.old self.new result }
    {
        let mut events = Items::new(self.alloc);
        self.install_all(&mut events)?;
        self.sweep_twice(&mut events)?;
        self.tick_leader(&mut events)?;
        self.sweep(&mut events)?;
        self.tick_leader(&mut events)?;
        let blocked = last_blocked(events.as_slice());
        self.sweep(&mut events)?;
        if met_full(events.as_slice()) {
            return Ok(line(self.alloc, Head::Settle, Answer::Stopped));
        }
        let messages = sent_in(events.as_slice())?;
        let answer = Answer::Settled { messages, blocked };
        Ok(line(self.alloc, Head::Settle, answer))
    }

    /// Each member takes up the last view.
    fn install_all(&mut self, events: &mut Events) -> Result<(), Memory>
        ensures { SettlesOr T.SpelledData.own (installs (replication T.Replica T.SpelledData.own)) self.old self.new events.old events.new result }
    {
        let ids = self.running()?;
        for id in &ids {
            self.install_last(*id, events)?;
        }
        Ok(())
    }

    /// The members of the last view.
    fn running(&self) -> Result<Vec<Id>, Memory>
        ensures { IfOk result (λ ids. ids.items ≡ identities_of (last_view self.now.views)) }
    {
        let mut ids = Items::new(self.alloc);
        for member in self.views.last().members() {
            ids.push(member.id)?;
        }
        Ok(ids.into_vec())
    }

    /// A member takes up the last view, if its own is older, unless a member was full.
    fn install_last(&mut self, at: Id, events: &mut Events) -> Result<(), Memory>
        ensures { SettlesOr T.SpelledData.own (λ p. install_last (replication T.Replica T.SpelledData.own) p at) self.old self.new events.old events.new result }
    {
        if !self.is_behind(at) || met_full(events.as_slice()) {
            return Ok(());
        }
        let number = self.views.last().number();
        let event = self.ask(at, &Ask::Install { view: number })?;
        events.push(event)
    }

    /// Whether a member's view is older than the last one.
    fn is_behind(&self, at: Id) -> bool
        ensures { result ≡ is_behind (last_view self.now.views) (member_of (last_view self.now.views) self.now.nodes.items at) }
    {
        match self.node(at) {
            Some(node) => node.view().number() < self.views.last().number(),
            None => false,
        }
    }

    /// The leader ticks, unless a member was full.
    fn tick_leader(&mut self, events: &mut Events) -> Result<(), Memory>
        ensures { SettlesOr T.SpelledData.own (tick (replication T.Replica T.SpelledData.own)) self.old self.new events.old events.new result }
    {
        if met_full(events.as_slice()) {
            return Ok(());
        }
        let lead = self.views.last().leader();
        let event = self.ask(lead, &Ask::Tick)?;
        events.push(event)
    }
}
