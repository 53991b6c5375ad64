ghost use Rattle.std.specs.Prelude.{◌≡◌, ◌<◌, false, true, None, length, map, slice_index_or, IfOk};
ghost use Rattle.member_node.specs.declared.plan.Plan.TheVariants as plan;
ghost use Rattle.member_messages.specs.declared.message.Message.TheVariants as message;
ghost use Rattle.member_node.specs.Sending.{peers_of};
ghost use Rattle.member_node.specs.Opening.{IsOpened};
ghost use Rattle.member_node.specs.Operations.{known};
ghost use Rattle.member_node.specs.Answerable.{RepliesTo};
ghost use Rattle.member_node.specs.declared.input.Input.TheVariants as input;
ghost use Rattle.member_node.specs.Preparing.{IsSoundFor, Prepares};

use crate::key::Updated;
use crate::node::Node;
use crate::operation::Asked;
use crate::operations::OperationChange;
use crate::plan::{Plan, Prepared};
use crate::preparing::identities;
use crate::reply::{Output, Reply};
use base_bytes::{Items, Memory, Text};
use base_vectors::Id;
use data_deltalog::NextRecord;
use data_envelope::Envelope;
use data_lattice::{Replica, SpelledData};
use member_keeper::Keeper;
use member_messages::{Message, Post, Posts};
use member_quorum::{Level, Tally, needed};
use std::alloc::Global;

/// The same message to each other member.
fn to_others<T: Replica>(
    alloc: Global,
    id: Id,
    members: &[Id],
    message: &Message<T>,
) -> Result<Posts<T>, Memory>
    ensures { IfOk result (λ posts. posts ≡ map (λ i. record { to = i; message = message.now }) (peers_of id members.now)) }
{
    let mut posts = Items::new(alloc);
    for peer in members {
        if *peer != id {
            let message = message.copy(alloc)?;
            posts.push(Post { to: *peer, message })?;
        }
    }
    Ok(posts)
}

impl<T: SpelledData, K: Keeper + Drop> Node<T, K> {
    /// The number of the next operation.
    fn next_op(&self) -> u64
        ensures { result ≡ length (known self.now.operations) }
    {
        self.operations.len() as u64
    }

    /// The next operation asks the other members, and has counted this one.
    fn opened(
        &self,
        plan: Plan<T>,
        key: &Text,
        reads: bool,
        number: usize,
        message: &Message<T>,
    ) -> Result<Prepared<T>, Memory>
        ensures plan { IfOk result (λ prepared. prepared.plan ≡ plan) }
        ensures opened { IfOk result (IsOpened self.now key.now reads number message.now) }
    {
        let members = identities(self.alloc, &self.view)?;
        let posts = to_others(self.alloc, self.id, &members, message)?;
        let key = key.copied();
        let tally = Tally::new(self.id, number);
        let asked = Asked { key, reads, tally };
        let next = self.operations.prepare(self.alloc, asked)?;
        Ok(Prepared {
            view: None,
            plan,
            operations: OperationChange::Opened(next),
            output: Output {
                reply: Reply::Pending(self.next_op()),
                posts,
                finished: None,
            },
        })
    }

    pub(crate) fn updated(
        &self,
        key: &Text,
        op: &T::Op,
        level: Level,
    ) -> Result<Prepared<T>, Memory>
        requires { self.now.steps < self.now.limit }
        ensures sound { IfOk result (IsSoundFor self.now) }
        ensures image { IfOk result (Prepares T.SpelledData.own self.now (input.Update key.now op.now level)) }
        ensures replies { IfOk result (RepliesTo (input.Update key.now op.now level)) }
    {
        let members = self.view.members();
        let Some(index) = self.position(key) else {
            return Ok(Prepared::reply(self.alloc, Reply::UnknownKey));
        };
        let state = &self.keys[index];
        if state.entry().closed() {
            return Ok(Prepared::reply(self.alloc, Reply::Deleted));
        }
        if !state.fits(op) {
            return Ok(Prepared::reply(self.alloc, Reply::WrongKind));
        }
        let Ok(number) = needed(level, members.len()) else {
            return Ok(Prepared::reply(self.alloc, Reply::TooFew));
        };
        match state.update(self.alloc, self.id, op)? {
            Updated::Refused(reply) => Ok(Prepared::reply(self.alloc, reply)),
            Updated::Recorded { entry, next } => {
                if number <= 1 {
                    return Ok(Prepared {
                        view: None,
                        plan: Plan::At { index, entry, next },
                        operations: OperationChange::Same,
                        output: Output::told(self.alloc, Reply::Done),
                    });
                }
                self.written(&state.name, index, entry, next, number)
            }
        }
    }

    /// The own record is written here, and the other members are asked to have it too.
    fn written(
        &self,
        name: &Text,
        index: usize,
        entry: Envelope<T>,
        next: NextRecord<T::Delta>,
        number: usize,
    ) -> Result<Prepared<T>, Memory>
        ensures plan { IfOk result (λ prepared. prepared.plan ≡ plan.At index entry next) }
        ensures opened { IfOk result (IsOpened self.now name.now false number (message.Write (length (known self.now.operations)) name.now entry)) }
    {
        let message = Message::Write {
            op: self.next_op(),
            key: name.copied(),
            envelope: entry.copy(self.alloc)?,
        };
        let plan = Plan::At { index, entry, next };
        self.opened(plan, name, false, number, &message)
    }

    pub(crate) fn shown(&self, key: &Text, level: Level) -> Result<Prepared<T>, Memory>
        ensures sound { IfOk result (IsSoundFor self.now) }
        ensures image { IfOk result (Prepares T.SpelledData.own self.now (input.Get key.now level)) }
        ensures replies { IfOk result (RepliesTo (input.Get key.now level)) }
    {
        let members = self.view.members();
        let Some(index) = self.position(key) else {
            return Ok(Prepared::reply(self.alloc, Reply::UnknownKey));
        };
        let state = &self.keys[index];
        let Ok(number) = needed(level, members.len()) else {
            return Ok(Prepared::reply(self.alloc, Reply::TooFew));
        };
        if number <= 1 {
            let reply = state.show(self.alloc)?;
            return Ok(Prepared::reply(self.alloc, reply));
        }
        self.read(&state.name, number)
    }

    /// The other members are asked for their entries of a key.
    fn read(&self, name: &Text, number: usize) -> Result<Prepared<T>, Memory>
        ensures plan { IfOk result (λ prepared. prepared.plan ≡ plan.Nothing) }
        ensures opened { IfOk result (IsOpened self.now name.now true number (message.Read (length (known self.now.operations)) name.now)) }
    {
        let message = Message::Read {
            op: self.next_op(),
            key: name.copied(),
        };
        self.opened(Plan::Nothing, name, true, number, &message)
    }
}
