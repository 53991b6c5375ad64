ghost use Rattle.std.specs.Prelude.{◌≡◌, ◌≢◌, ℕ, List, Some, IfOk, MatchResult};
ghost use Rattle.model_members.specs.Script.{IsStep};
ghost use Rattle.model_members.specs.View.{View};
ghost use Rattle.script_reading.specs.Meant.{step_of};
ghost use Rattle.script_reading.specs.declared.ask.Ask.TheVariants as question;
ghost use Rattle.script_reading.specs.declared.script.Step.TheVariants as form;
ghost use Rattle.world_members.specs.Asking.{input_of};
ghost use Rattle.world_members.specs.Steps.{Plays, Remains, MakesStep};

use crate::event::{Answer, Event, Events, Head};
use crate::world::{World, line};
use base_bytes::{Items, Memory};
use base_vectors::Id;
use data_lattice::{Replica, SpelledData};
use member_keeper::Keeper;
use member_node::Input;
use model_kinds::Op;
use script_reading::{Ask, Step};

/// The input that a question is, if it installs no view.
pub fn input_of<T: Replica<Op = Op>>(ask: &Ask) -> Input<T>
    requires { (view : ℕ) → ask.now ≢ question.Install view }
    ensures { (views : List View) → input_of views ask.now ≡ Some result }
{
    match ask {
        Ask::Update { key, op, level } => Input::Update {
            key: key.copied(),
            op: op.copied(),
            level: *level,
        },
        Ask::Get { key, level } => Input::Get {
            key: key.copied(),
            level: *level,
        },
        Ask::Flush => Input::Flush,
        Ask::Gossip { to } => Input::GossipTo(*to),
        Ask::Tick => Input::PruneTick,
        Ask::Install { .. } => unreachable!(),
    }
}

impl<T: SpelledData<Op = Op>, K: Keeper + Drop> World<T, K> {
    /// Does what a step of a script says, and tells what was done.
    ///
    /// # Errors
    ///
    /// Memory was refused. Of a round and of a settle, what was done stands; of a join, the keeper of the place may have forgotten all;
    /// and all else is as before.
    pub fn step(&mut self, step: &Step) -> Result<Events, Memory>
        requires { IsStep (step_of step.now) }
        ensures { MatchResult result (Plays T.SpelledData.own step.now self.old self.new) (λ _. Remains T.SpelledData.own step.now self.old self.new) }
    {
        if let Step::Round = step {
            return self.round();
        }
        let mut events = Vec::with_capacity(self.alloc, 1)?;
        let event = self.step_alone(step)?;
        let _ = events.push(event);
        Ok(Items::from_vec(events))
    }

    /// Does what a step other than a round says.
    #[inline(always)]
    fn step_alone(&mut self, step: &Step) -> Result<Event, Memory>
        requires step { IsStep (step_of step.now) }
        requires alone { step.now ≢ form.Round }
        ensures { MakesStep T.SpelledData.own step.now self.old self.new result }
    {
        match step {
            Step::Ask { at, ask } => self.ask(*at, ask),
            Step::Deliver { from, to, index } => self.deliver_one(*from, *to, *index),
            Step::Lose { from, to } => Ok(self.lose(*from, *to)),
            Step::Round => unreachable!(),
            Step::Timeout { at, op } => self.timeout(*at, *op),
            Step::Remove { id } => self.remove(*id),
            Step::Join { place } => self.join(*place),
            Step::Restart { id } => self.restart(*id),
            Step::Settle => self.settle(),
        }
    }

    /// A member is asked.
    #[inline(always)]
    pub(crate) fn ask(&mut self, at: Id, ask: &Ask) -> Result<Event, Memory>
        ensures { MakesStep T.SpelledData.own (form.Ask at ask.now) self.old self.new result }
    {
        let head = Head::Asked {
            at,
            ask: ask.copied(),
        };
        match self.asked_input(ask)? {
            Some(input) => self.give(at, head, &input),
            None if self.views.last().contains(at) => {
                Ok(line(self.alloc, head, Answer::NoSuchView))
            }
            None => Ok(line(self.alloc, head, Answer::Gone)),
        }
    }

    /// The input that a question is, and none where no view has the number that it names.
    #[inline(always)]
    fn asked_input(&self, ask: &Ask) -> Result<Option<Input<T>>, Memory>
        ensures { IfOk result (λ input. input ≡ input_of self.now.views ask.now) }
    {
        let Ask::Install { view } = ask else {
            return Ok(Some(input_of(ask)));
        };
        match self.views.get(*view) {
            Some(view) => Ok(Some(Input::Install(view.copy(self.alloc)?))),
            None => Ok(None),
        }
    }

    /// An open operation of a member is to be closed without a result.
    fn timeout(&mut self, at: Id, op: u64) -> Result<Event, Memory>
        ensures { MakesStep T.SpelledData.own (form.Timeout at op) self.old self.new result }
    {
        self.give(at, Head::Timeout { at, op }, &Input::Timeout(op))
    }

    /// The message of a number is delivered, or the next one due where no number is given.
    #[inline(always)]
    fn deliver_one(&mut self, from: Id, to: Id, index: Option<u32>) -> Result<Event, Memory>
        ensures { MakesStep T.SpelledData.own (form.Deliver from to index) self.old self.new result }
    {
        match index {
            Some(index) => self.deliver(from, to, index as usize),
            None => {
                let due = self.links.next(from, to);
                self.deliver(from, to, due)
            }
        }
    }
}
