ghost use Rattle.std.specs.Prelude.{◌≡◌, [], ◌∷◌, true, None, Some, length, if◌then◌else◌, IfOk};
ghost use Rattle.std.specs.Option.{option_copied};
ghost use Rattle.model_history.specs.History.{History};
ghost use Rattle.model_members.specs.View.{is_member};
ghost use Rattle.model_members.specs.Entry.{Entry, has_records};
ghost use Rattle.data_envelope.specs.Images.{StandsFor};
ghost use Rattle.data_envelope.specs.Words.{parts_of};
ghost use Rattle.member_messages.specs.declared.message.Message.TheVariants as message;
ghost use Rattle.member_node.specs.declared.input.Input.TheVariants as input;
ghost use Rattle.member_node.specs.declared.operation.Operation.TheVariants as operation;
ghost use Rattle.member_node.specs.declared.operation.OperationResult.TheVariants as ended;
ghost use Rattle.member_node.specs.declared.operations.OperationChange.TheVariants as change;
ghost use Rattle.member_node.specs.Showing.{ShowsReadIfOk};
ghost use Rattle.member_node.specs.Counting.{open_at, IsAnswered, is_write, is_read_of, IsCountOf, AnswersRead, EndsReadIfOk, CountsReadIfOk};
ghost use Rattle.member_node.specs.Operations.{known};
ghost use Rattle.member_node.specs.Preparing.{IsSoundFor, Prepares};
ghost use Rattle.member_node.specs.Answerable.{RepliesTo};

use crate::change::{Changes, current};
use crate::entries::{any_changed, is_known, merged};
use crate::node::Node;
use crate::operation::{Asked, Finished, Operation, OperationResult};
use crate::operations::{OperationChange, Operations};
use crate::plan::{Plan, Prepared};
use crate::reply::{Output, Reply};
use base_bytes::{Items, Memory, Text};
use base_vectors::Id;
use data_envelope::Envelope;
use data_lattice::{Replica, SpelledData};
use member_keeper::Keeper;
use member_messages::{Message, Post, Posts};
use member_quorum::Progress;
use std::alloc::Global;

/// A message to one member.
fn answer_to<T: Replica>(alloc: Global, to: Id, message: Message<T>) -> Result<Posts<T>, Memory>
    ensures { IfOk result (λ posts. posts ≡ record { to = to; message = message } ∷ []) }
{
    let mut posts = Items::new(alloc);
    posts.push(Post { to, message })?;
    Ok(posts)
}

impl Asked {
    /// The same with one more answer, or nothing where it now has as many as it needs.
    fn waiting(&self, alloc: Global, from: Id) -> Result<Option<Asked>, Memory>
        ensures { IfOk result (IsAnswered self.now from) }
    {
        let mut tally = self.tally;
        match tally.answer(from) {
            Progress::Done => Ok(None),
            Progress::Waiting => {
                let key = self.key.copied();
                let reads = self.reads;
                Ok(Some(Asked { key, reads, tally }))
            }
        }
    }
}

impl Asked {
    /// Whether it reads this key.
    fn reads_key(&self, key: &Text) -> bool
        ensures { result ≡ is_read_of key.now self.now }
    {
        self.reads && self.key.as_str() == key.as_str()
    }
}

impl Operations {
    /// The open operation of a number, if this is one.
    pub(crate) fn asked(&self, op: u64) -> Option<&Asked>
        ensures { option_copied result ≡ open_at (known self.now) op }
    {
        match self.at(op) {
            Some(Operation::Open(asked)) => Some(asked),
            _ => None,
        }
    }
}

/// What an answer makes of the operations, and the operation that it ends.
#[derive(Drop)]
struct Counted {
    change: OperationChange,
    finished: Option<Finished>,
}

impl Counted {
    /// An answer that does not count.
    fn nothing() -> Counted
        ensures { result ≡ record { change = change.Same; finished = None } }
    {
        Counted {
            change: OperationChange::Same,
            finished: None,
        }
    }

    /// More answers are needed.
    fn open(op: u64, asked: Asked) -> Counted
        ensures { result ≡ record { change = change.Put op (operation.Open asked); finished = None } }
    {
        Counted {
            change: OperationChange::Put {
                op: op as usize,
                operation: Operation::Open(asked),
            },
            finished: None,
        }
    }

    /// The operation ends.
    fn ended(alloc: Global, op: u64, end: OperationResult) -> Result<Counted, Memory>
        ensures { IfOk result (λ counted. counted ≡ record { change = change.Put op (operation.Finished end); finished = Some (record { op = op; result = end }) }) }
    {
        let copy = end.copy(alloc)?;
        Ok(Counted {
            change: OperationChange::Put {
                op: op as usize,
                operation: Operation::Finished(end),
            },
            finished: Some(Finished { op, result: copy }),
        })
    }
}

/// What a read ends with, where the key has this entry.
fn read_result<T: Replica>(alloc: Global, entry: &Envelope<T>) -> Result<OperationResult, Memory>
    ensures { ShowsReadIfOk T.Replica entry.now result }
{
    if !entry.has_records() {
        return Ok(OperationResult::ReadNothing);
    }
    if entry.closed() {
        return Ok(OperationResult::ReadDeleted);
    }
    let shown = entry.show(alloc)?;
    Ok(OperationResult::Read(shown))
}

/// An equal entry, if it has records.
fn copy_with_records<T: Replica>(
    alloc: Global,
    entry: &Envelope<T>,
) -> Result<Option<Envelope<T>>, Memory>
    ensures { (log : History T.Op) (held : Entry T.Op) → StandsFor T.IsDataOf (parts_of entry.now) log held → IfOk result (λ copy. copy ≡ (if has_records held then Some entry.now else None)) }
{
    if !entry.has_records() {
        return Ok(None);
    }
    Ok(Some(entry.copy(alloc)?))
}

impl<T: SpelledData, K: Keeper + Drop> Node<T, K> {
    /// Takes an entry that another member writes here. One of a key that is not declared, or of another kind, is passed over,
    /// and not acknowledged: this member holds nothing of it.
    pub(crate) fn write_taken(
        &self,
        from: Id,
        op: u64,
        key: &Text,
        envelope: &Envelope<T>,
    ) -> Result<Prepared<T>, Memory>
        requires { is_member self.now.view from ≡ true }
        ensures sound { IfOk result (IsSoundFor self.now) }
        ensures image { IfOk result (Prepares T.SpelledData.own self.now (input.Take from (message.Write op key.now envelope.now))) }
        ensures replies { IfOk result (RepliesTo (input.Take from (message.Write op key.now envelope.now))) }
    {
        if !is_known(&self.keys, &self.places, key, envelope) {
            return Ok(Prepared::reply(self.alloc, Reply::Already));
        }
        let view = self.view.number();
        let changes = merged(
            self.alloc,
            &self.keys,
            &self.places,
            self.id,
            view,
            key,
            Some(envelope),
        )?;
        let reply = Reply::of_take(any_changed(&self.keys, &changes));
        let posts = answer_to(self.alloc, from, Message::WriteAck { op })?;
        Ok(Prepared {
            view: None,
            plan: Plan::Each(changes),
            operations: OperationChange::Same,
            output: Output {
                reply,
                posts,
                finished: None,
            },
        })
    }

    /// What is answered to a read: the entry of the key, where it has records.
    fn read_answer(&self, op: u64, key: &Text) -> Result<Message<T>, Memory>
        ensures { IfOk result (AnswersRead self.now op key.now) }
    {
        let Some(index) = self.position(key) else {
            let key = key.copied();
            let envelope = None;
            return Ok(Message::ReadAnswer { op, key, envelope });
        };
        let envelope = copy_with_records(self.alloc, self.keys[index].entry.envelope())?;
        let key = key.copied();
        Ok(Message::ReadAnswer { op, key, envelope })
    }

    /// Answers another member that asks for the entry of a key.
    pub(crate) fn read_taken(&self, from: Id, op: u64, key: &Text) -> Result<Prepared<T>, Memory>
        requires { is_member self.now.view from ≡ true }
        ensures sound { IfOk result (IsSoundFor self.now) }
        ensures image { IfOk result (Prepares T.SpelledData.own self.now (input.Take from (message.Read op key.now))) }
        ensures replies { IfOk result (RepliesTo (input.Take from (message.Read op key.now))) }
    {
        let message = self.read_answer(op, key)?;
        let posts = answer_to(self.alloc, from, message)?;
        Ok(Prepared {
            view: None,
            plan: Plan::Nothing,
            operations: OperationChange::Same,
            output: Output {
                reply: Reply::Taken,
                posts,
                finished: None,
            },
        })
    }

    /// Counts the acknowledgement of an open write.
    fn write_counted(&self, from: Id, op: u64) -> Result<Counted, Memory>
        ensures { IfOk result (IsCountOf (known self.now.operations) from op is_write (λ end. end ≡ ended.Wrote)) }
    {
        let Some(asked) = self.operations.asked(op) else {
            return Ok(Counted::nothing());
        };
        if asked.reads {
            return Ok(Counted::nothing());
        }
        match asked.waiting(self.alloc, from)? {
            Some(asked) => Ok(Counted::open(op, asked)),
            None => Counted::ended(self.alloc, op, OperationResult::Wrote),
        }
    }

    /// Takes the acknowledgement of a write.
    pub(crate) fn acknowledged(&self, from: Id, op: u64) -> Result<Prepared<T>, Memory>
        requires { is_member self.now.view from ≡ true }
        ensures sound { IfOk result (IsSoundFor self.now) }
        ensures image { IfOk result (Prepares T.SpelledData.own self.now (input.Take from (message.WriteAck op))) }
        ensures replies { IfOk result (RepliesTo (input.Take from (message.WriteAck op))) }
    {
        let counted = self.write_counted(from, op)?;
        Ok(Prepared {
            view: None,
            plan: Plan::Nothing,
            operations: counted.change,
            output: Output {
                reply: Reply::Taken,
                posts: Items::new(self.alloc),
                finished: counted.finished,
            },
        })
    }

    /// What a read of a key ends with, once these changes are written.
    fn end_of_read(&self, key: &Text, changes: &Changes<T>) -> Result<OperationResult, Memory>
        requires { length changes.now ≡ length self.now.keys.items }
        ensures { EndsReadIfOk self.now key.now changes.now result }
    {
        let Some(index) = self.position(key) else {
            return Ok(OperationResult::ReadNothing);
        };
        let entry = current(&self.keys[index], changes, index);
        read_result(self.alloc, entry)
    }

    /// Counts the answer to an open read of a key, once it was merged.
    fn read_counted(
        &self,
        from: Id,
        op: u64,
        key: &Text,
        changes: &Changes<T>,
    ) -> Result<Counted, Memory>
        requires { length changes.now ≡ length self.now.keys.items }
        ensures counts { IfOk result (IsCountOf (known self.now.operations) from op (is_read_of key.now) (λ end. Unit {0})) }
        ensures image { CountsReadIfOk self.now from op key.now changes.now result }
    {
        let Some(asked) = self.operations.asked(op) else {
            return Ok(Counted::nothing());
        };
        if !asked.reads_key(key) {
            return Ok(Counted::nothing());
        }
        match asked.waiting(self.alloc, from)? {
            Some(asked) => Ok(Counted::open(op, asked)),
            None => {
                let end = self.end_of_read(key, changes)?;
                Counted::ended(self.alloc, op, end)
            }
        }
    }

    /// Takes the answer to a read: its entry is merged, and then it is counted.
    pub(crate) fn answer_taken(
        &self,
        from: Id,
        op: u64,
        key: &Text,
        envelope: Option<&Envelope<T>>,
    ) -> Result<Prepared<T>, Memory>
        requires { is_member self.now.view from ≡ true }
        ensures sound { IfOk result (IsSoundFor self.now) }
        ensures image { IfOk result (Prepares T.SpelledData.own self.now (input.Take from (message.ReadAnswer op key.now (option_copied envelope.entry)))) }
        ensures replies { IfOk result (RepliesTo (input.Take from (message.ReadAnswer op key.now (option_copied envelope.entry)))) }
    {
        let view = self.view.number();
        let changes = merged(
            self.alloc,
            &self.keys,
            &self.places,
            self.id,
            view,
            key,
            envelope,
        )?;
        let reply = Reply::of_take(any_changed(&self.keys, &changes));
        let counted = self.read_counted(from, op, key, &changes)?;
        Ok(Prepared {
            view: None,
            plan: Plan::Each(changes),
            operations: counted.change,
            output: Output {
                reply,
                posts: Items::new(self.alloc),
                finished: counted.finished,
            },
        })
    }
}
