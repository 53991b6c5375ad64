ghost use Rattle.std.specs.Prelude.{◌≡◌, ◌==◌, IfOk, filter, not};
ghost use Rattle.model_members.specs.View.{identities_of};
ghost use Rattle.model_members.specs.Script.{deliver_last, sweep};
ghost use Rattle.member_node.specs.Steps.{replication};
ghost use Rattle.member_views.specs.Sound.{last_view};
ghost use Rattle.world_members.specs.Settling.{sweeps_twice, gossips, exchanges, SettlesOr};

use crate::event::Events;
use crate::settling::{met_full, sent_in};
use crate::world::World;
use base_bytes::{Items, Memory};
use base_vectors::Id;
use data_lattice::SpelledData;
use member_keeper::Keeper;
use model_kinds::Op;
use script_reading::Ask;

impl<T: SpelledData<Op = Op>, K: Keeper + Drop> World<T, K> {
    /// Two sweeps: what the leader takes in the first goes to all in the second.
    pub(crate) fn sweep_twice(&mut self, events: &mut Events) -> Result<(), Memory>
        ensures { SettlesOr T.SpelledData.own (sweeps_twice (replication T.Replica T.SpelledData.own)) self.old self.new events.old events.new result }
    {
        self.sweep(events)?;
        self.sweep(events)
    }

    /// Each member but the leader has an exchange with it, by their identities.
    pub(crate) fn sweep(&mut self, events: &mut Events) -> Result<(), Memory>
        ensures { SettlesOr T.SpelledData.own (sweep (replication T.Replica T.SpelledData.own)) self.old self.new events.old events.new result }
    {
        let lead = self.views.last().leader();
        let ids = self.others(lead)?;
        for id in &ids {
            self.exchange(lead, *id, events)?;
        }
        Ok(())
    }

    /// The members of the last view other than this one.
    fn others(&self, lead: Id) -> Result<Vec<Id>, Memory>
        ensures { IfOk result (λ ids. ids.items ≡ filter (λ i. not (i == lead)) (identities_of (last_view self.now.views))) }
    {
        let mut ids = Items::new(self.alloc);
        for member in self.views.last().members() {
            if member.id != lead {
                ids.push(member.id)?;
            }
        }
        Ok(ids.into_vec())
    }

    /// A member gossips to the leader, and the messages of this exchange are delivered as they are sent, at most three.
    fn exchange(&mut self, lead: Id, at: Id, events: &mut Events) -> Result<(), Memory>
        ensures { SettlesOr T.SpelledData.own (exchanges (replication T.Replica T.SpelledData.own) lead at) self.old self.new events.old events.new result }
    {
        let before = sent_in(events.as_slice())?;
        self.gossip_unless_full(at, lead, events)?;
        let first = sent_in(events.as_slice())?;
        self.deliver_last(before, at, lead, events)?;
        let second = sent_in(events.as_slice())?;
        self.deliver_last(first, lead, at, events)?;
        self.deliver_last(second, at, lead, events)
    }

    /// A member gossips to the leader, unless a member was full.
    fn gossip_unless_full(&mut self, at: Id, lead: Id, events: &mut Events) -> Result<(), Memory>
        ensures { SettlesOr T.SpelledData.own (gossips (replication T.Replica T.SpelledData.own) lead at) self.old self.new events.old events.new result }
    {
        if met_full(events.as_slice()) {
            return Ok(());
        }
        let event = self.ask(at, &Ask::Gossip { to: lead })?;
        events.push(event)
    }

    /// Where more messages were sent than so many, the last one of a link is delivered, unless a member was full.
    fn deliver_last(
        &mut self,
        before: usize,
        from: Id,
        to: Id,
        events: &mut Events,
    ) -> Result<(), Memory>
        ensures { SettlesOr T.SpelledData.own (deliver_last (replication T.Replica T.SpelledData.own) before from to) self.old self.new events.old events.new result }
    {
        let sent = sent_in(events.as_slice())?;
        if before == sent || met_full(events.as_slice()) {
            return Ok(());
        }
        let last = self.links.sent(from, to).saturating_sub(1);
        let event = self.deliver(from, to, last)?;
        events.push(event)
    }
}
