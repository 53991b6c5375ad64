ghost use Rattle.std.specs.Prelude.{◌≡◌, ◌++◌, IfOk, OnOk, MatchResult};
ghost use Rattle.model_members.specs.View.{identities_of};
ghost use Rattle.member_views.specs.Sound.{AreViews, last_view};
ghost use Rattle.script_reading.specs.declared.script.Step.TheVariants as form;
ghost use Rattle.world_members.specs.Rounds.{dues_from, dues_of, delivers_due, DoesMoreOr};
ghost use Rattle.world_members.specs.Steps.{Plays, Remains};

use crate::event::{Answer, Events, Head};
use crate::world::{World, line};
use base_bytes::{Items, Memory};
use base_vectors::Id;
use data_lattice::SpelledData;
use member_keeper::Keeper;
use model_kinds::Op;

/// Messages that are due on a link: those from one number on, before another.
#[derive(Clone, Copy, Debug, PartialEq, Eq)]
pub(crate) struct Due {
    pub(crate) from: Id,
    pub(crate) to: Id,
    pub(crate) first: usize,
    pub(crate) end: usize,
}

impl<T: SpelledData<Op = Op>, K: Keeper + Drop> World<T, K> {
    /// Delivers all messages that are due when the round begins: by senders, then by receivers, each link's in their order.
    /// Where memory is refused, what was delivered stands.
    pub(crate) fn round(&mut self) -> Result<Events, Memory>
        ensures { MatchResult result (Plays T.SpelledData.own form.Round self.old self.new) (λ _. Remains T.SpelledData.own form.Round self.old self.new) }
    {
        let dues = self.dues()?;
        let mut events = Items::new(self.alloc);
        if dues.is_empty() {
            events.push(line(self.alloc, Head::Round, Answer::Nothing))?;
            return Ok(events);
        }
        for due in &dues {
            self.deliver_due(*due, &mut events)?;
        }
        Ok(events)
    }

    /// What is due on each link.
    fn dues(&self) -> Result<Vec<Due>, Memory>
        ensures due { IfOk result (λ dues. dues.items ≡ dues_of self.now.links (last_view self.now.views)) }
        ensures sound { AreViews self.now.views }
    {
        let mut dues = Items::new(self.alloc);
        for number in 0..self.views.last().given() {
            let from = Id::new(number).unwrap();
            self.add_dues_from(from, &mut dues)?;
        }
        Ok(dues.into_vec())
    }

    /// Adds what is due on the links of a sender to the members.
    fn add_dues_from(&self, from: Id, dues: &mut Items<Due>) -> Result<(), Memory>
        ensures { OnOk result (dues.new ≡ dues.old ++ dues_from self.now.links (identities_of (last_view self.now.views)) from) }
    {
        for member in self.views.last().members() {
            let to = member.id;
            let first = self.links.next(from, to);
            let end = self.links.sent(from, to);
            if first < end {
                dues.push(Due {
                    from,
                    to,
                    first,
                    end,
                })?;
            }
        }
        Ok(())
    }

    /// Delivers what is due on a link, and adds the events.
    fn deliver_due(&mut self, due: Due, events: &mut Events) -> Result<(), Memory>
        ensures { DoesMoreOr T.SpelledData.own (delivers_due T.Replica T.SpelledData.own due) self.old self.new events.old events.new result }
    {
        for index in due.first..due.end {
            let event = self.deliver(due.from, due.to, index)?;
            events.push(event)?;
        }
        Ok(())
    }
}
