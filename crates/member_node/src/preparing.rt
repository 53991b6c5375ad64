ghost use Rattle.std.specs.Prelude.{◌≡◌, ◌<◌, ◌&&◌, ◌==◌, true, not, IfOk};
ghost use Rattle.model_members.specs.View.{is_member, identities_of, removed_of};
ghost use Rattle.member_node.specs.declared.input.Input.TheVariants as input;
ghost use Rattle.member_node.specs.Answers.{is_exchange};
ghost use Rattle.member_node.specs.Answerable.{RepliesTo};
ghost use Rattle.member_node.specs.Changes.{AreMade};
ghost use Rattle.member_node.specs.Preparing.{IsSoundFor, Prepares};
ghost use Rattle.member_node.specs.Installing.{IsSeen};

use crate::change::{Change, Changes, unchanged};
use crate::gossip::status;
use crate::input::Input;
use crate::key::KeyState;
use crate::node::Node;
use crate::operations::OperationChange;
use crate::plan::{Plan, Prepared};
use crate::reply::{Output, Reply};
use crate::sending::{flushes, posts};
use crate::taking::{MessageTaken, taken};
use crate::ticking::{Ticks, tick_all};
use base_bytes::{Items, Memory};
use base_vectors::Id;
use data_lattice::{Replica, SpelledData};
use member_keeper::Keeper;
use member_messages::Message;
use member_views::View;
use std::alloc::Global;

/// The identities of the members.
pub(crate) fn identities(alloc: Global, view: &View) -> Result<Vec<Id>, Memory>
    ensures { IfOk result (λ ids. ids.items ≡ identities_of view.now) }
{
    let ids = view
        .members()
        .iter()
        .map(|member| member.id)
        .collect(alloc)?;
    Ok(ids)
}

/// The identities that were given and are no members.
fn left(alloc: Global, view: &View) -> Result<Vec<Id>, Memory>
    ensures { IfOk result (λ ids. ids.items ≡ removed_of view.now) }
{
    let given = view.given();
    let mut ids = Items::new(alloc);
    for number in 0..given {
        if let Some(id) = Id::new(number) {
            if !view.contains(id) {
                ids.push(id)?;
            }
        }
    }
    Ok(ids.into_vec())
}

/// The entries after a member saw their marks with another view.
fn seen<T: Replica>(
    alloc: Global,
    keys: &[KeyState<T>],
    id: Id,
    view: u32,
) -> Result<Changes<T>, Memory>
    ensures { IfOk result (AreMade (IsSeen T.Replica id view) keys.now) }
{
    let mut changes = unchanged(alloc, keys);
    for (index, state) in keys.iter().enumerate() {
        let mut entry = state.entry.envelope().copy(alloc)?;
        entry.add_seen(id, view);
        changes.set(index, Change::Entry(entry))?;
    }
    Ok(changes)
}

impl<T: SpelledData, K: Keeper + Drop> Node<T, K> {
    /// A step for an input, before it is made. All memory that it needs is taken here, but for what is stored.
    pub(crate) fn prepare(&self, input: &Input<T>) -> Result<Prepared<T>, Memory>
        requires { self.now.steps < self.now.limit }
        ensures sound { IfOk result (IsSoundFor self.now) }
        ensures image { IfOk result (Prepares T.SpelledData.own self.now input.now) }
        ensures replies { IfOk result (RepliesTo input.now) }
    {
        match input {
            Input::Update { key, op, level } => self.updated(key, op, *level),
            Input::Get { key, level } => self.shown(key, *level),
            Input::Take { from, message } => self.taken(*from, message),
            Input::Install(view) => self.installed(view),
            Input::Flush => self.flushed(),
            Input::GossipTo(to) => self.gossiped(*to),
            Input::PruneTick => self.ticked(),
            Input::Timeout(op) => Ok(self.timed_out(*op)),
        }
    }

    /// A step for a message, before it is made.
    pub(crate) fn taken(&self, from: Id, message: &Message<T>) -> Result<Prepared<T>, Memory>
        ensures sound { IfOk result (IsSoundFor self.now) }
        ensures image { IfOk result (Prepares T.SpelledData.own self.now (input.Take from message.now)) }
        ensures replies { IfOk result (RepliesTo (input.Take from message.now)) }
    {
        if !self.view.contains(from) {
            return Ok(Prepared::reply(self.alloc, Reply::NotFromMember));
        }
        match message {
            Message::Write { op, key, envelope } => self.write_taken(from, *op, key, envelope),
            Message::WriteAck { op } => self.acknowledged(from, *op),
            Message::WriteNack { .. } => Ok(Prepared::reply(self.alloc, Reply::Taken)),
            Message::Read { op, key } => self.read_taken(from, *op, key),
            Message::ReadAnswer { op, key, envelope } => {
                self.answer_taken(from, *op, key, envelope.as_ref())
            }
            _ => self.exchanged(from, message),
        }
    }

    /// Takes groups, entries, nacks and digests.
    fn exchanged(&self, from: Id, message: &Message<T>) -> Result<Prepared<T>, Memory>
        requires member { is_member self.now.view from ≡ true }
        requires exchange { is_exchange message.now ≡ true }
        ensures sound { IfOk result (IsSoundFor self.now) }
        ensures image { IfOk result (Prepares T.SpelledData.own self.now (input.Take from message.now)) }
        ensures replies { IfOk result (RepliesTo (input.Take from message.now)) }
    {
        let view = self.view.number();
        let taken = taken(
            self.alloc,
            &self.keys,
            &self.places,
            self.id,
            view,
            from,
            message,
        )?;
        let MessageTaken { changes, output } = taken;
        Ok(Prepared {
            view: None,
            plan: Plan::Each(changes),
            operations: OperationChange::Same,
            output,
        })
    }

    fn installed(&self, view: &View) -> Result<Prepared<T>, Memory>
        ensures sound { IfOk result (IsSoundFor self.now) }
        ensures image { IfOk result (Prepares T.SpelledData.own self.now (input.Install view.now)) }
        ensures replies { IfOk result (RepliesTo (input.Install view.now)) }
    {
        let number = view.number();
        let own = self.view.number();
        if number <= own {
            return Ok(Prepared::reply(self.alloc, Reply::OldView));
        }
        let changes = seen(self.alloc, &self.keys, self.id, number)?;
        let view = view.copy(self.alloc)?;
        Ok(Prepared {
            view: Some(view),
            plan: Plan::Each(changes),
            operations: OperationChange::Same,
            output: Output::told(self.alloc, Reply::Installed),
        })
    }

    fn flushed(&self) -> Result<Prepared<T>, Memory>
        ensures sound { IfOk result (IsSoundFor self.now) }
        ensures image { IfOk result (Prepares T.SpelledData.own self.now input.Flush) }
        ensures replies { IfOk result (RepliesTo input.Flush) }
    {
        let members = identities(self.alloc, &self.view)?;
        let posts = posts(self.alloc, &self.keys, self.id, &members)?;
        let changes = flushes(self.alloc, &self.keys, self.id, &members)?;
        let reply = Reply::Done;
        Ok(Prepared {
            view: None,
            plan: Plan::Each(changes),
            operations: OperationChange::Same,
            output: Output {
                reply,
                posts,
                finished: None,
            },
        })
    }

    /// Whether this is another member of the view.
    fn is_peer(&self, id: Id) -> bool
        ensures { result ≡ (not (id == self.now.id) && is_member self.now.view id) }
    {
        id != self.id && self.view.contains(id)
    }

    fn gossiped(&self, to: Id) -> Result<Prepared<T>, Memory>
        ensures sound { IfOk result (IsSoundFor self.now) }
        ensures image { IfOk result (Prepares T.SpelledData.own self.now (input.GossipTo to)) }
        ensures replies { IfOk result (RepliesTo (input.GossipTo to)) }
    {
        if !self.is_peer(to) {
            return Ok(Prepared::reply(self.alloc, Reply::NotAPeer));
        }
        let posts = status(self.alloc, &self.keys, to)?;
        let reply = Reply::Done;
        Ok(Prepared {
            view: None,
            plan: Plan::Nothing,
            operations: OperationChange::Same,
            output: Output {
                reply,
                posts,
                finished: None,
            },
        })
    }

    fn ticked(&self) -> Result<Prepared<T>, Memory>
        requires { self.now.steps < self.now.limit }
        ensures sound { IfOk result (IsSoundFor self.now) }
        ensures image { IfOk result (Prepares T.SpelledData.own self.now input.PruneTick) }
        ensures replies { IfOk result (RepliesTo input.PruneTick) }
    {
        let leader = self.view.leader();
        if leader != self.id {
            return Ok(Prepared::reply(self.alloc, Reply::NotLeader(leader)));
        }
        let view = self.view.number();
        let members = identities(self.alloc, &self.view)?;
        let removed = left(self.alloc, &self.view)?;
        let ticks = tick_all(self.alloc, &self.keys, self.id, view, &members, &removed)?;
        let Ticks { keys, outcomes } = ticks;
        Ok(Prepared {
            view: None,
            plan: Plan::Ticked(keys),
            operations: OperationChange::Same,
            output: Output::told(self.alloc, Reply::Ticked(outcomes)),
        })
    }
}
