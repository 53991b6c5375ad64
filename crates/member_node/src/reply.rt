ghost use Rattle.std.specs.Prelude.{◌≡◌, [], map};
ghost use Rattle.member_node.specs.Outputs.{refused_post};

use crate::operation::{Finished, copy_finished};
use crate::outcome::{Outcomes, copy_outcomes};
use crate::shown::copy_shown;
use base_bytes::{Items, Memory};
use base_vectors::Id;
use data_lattice::Replica;
use member_messages::{Message, Post, Posts};
use model_kinds::Shown;
use std::alloc::Global;

/// What a member replies.
#[derive(Drop)]
pub enum Reply {
    /// The update, the flush or the gossip was done.
    Done,
    /// The operation of this number was opened, and waits for answers.
    Pending(u64),
    /// The value of the key.
    Value(Shown),
    /// The key is deleted. An update changed nothing.
    Deleted,
    /// The key has no record.
    NotFound,
    /// The key is not declared.
    UnknownKey,
    /// The operation is not one of the key's kind.
    WrongKind,
    /// The level asks for more members than the view has; nothing changed.
    TooFew,
    /// The own share of a counter and the amount add to more than `2^63 - 1`; nothing changed.
    Overflow { share: u64, amount: u64 },
    /// The timestamp of the register is `2^63 - 1` already; nothing changed.
    ClockSpent,
    /// The set shows 256 elements or more, and the added one is none of them; nothing changed.
    SetFull,
    /// The keeper failed. The step was made, and what it changed was not kept.
    StoreFailed,
    /// The message changed an entry, or was a nack or a status.
    Taken,
    /// Any other message that changed no entry. It may have been answered.
    Already,
    /// The member lacks a record of this identity, which a group of the message needs.
    Gap(Id),
    /// The sender is no member.
    NotFromMember,
    /// The view is the member's own now.
    Installed,
    /// The number of the view is not greater than that of the member's own.
    OldView,
    /// The receiver is no other member.
    NotAPeer,
    /// What the tick made of each key and each identity that left.
    Ticked(Outcomes),
    /// The same, where the keeper failed.
    TickedStoreFailed(Outcomes),
    /// This member leads the view.
    NotLeader(Id),
    /// The operation was open, and is closed.
    TimedOut,
    /// No operation of this number is open.
    NoSuchOp,
}

impl Reply {
    ghost use Rattle.std.specs.Prelude.{◌≡◌, if◌then◌else◌, IfOk};
    ghost use Rattle.model_members.specs.Node.{Reply as Meant};
    ghost use Rattle.member_node.specs.Replies.{meant};
    ghost use Rattle.member_node.specs.Outputs.{failed, is_pending};

    /// An equal reply.
    pub fn copy(&self, alloc: Global) -> Result<Reply, Memory>
        ensures { IfOk result (λ copy. copy ≡ self.now) }
    {
        match self {
            Reply::Done => Ok(Reply::Done),
            Reply::Pending(op) => Ok(Reply::Pending(*op)),
            Reply::Value(shown) => Ok(Reply::Value(copy_shown(alloc, shown)?)),
            Reply::Deleted => Ok(Reply::Deleted),
            Reply::NotFound => Ok(Reply::NotFound),
            Reply::UnknownKey => Ok(Reply::UnknownKey),
            Reply::WrongKind => Ok(Reply::WrongKind),
            Reply::TooFew => Ok(Reply::TooFew),
            Reply::Overflow { share, amount } => Ok(Reply::Overflow {
                share: *share,
                amount: *amount,
            }),
            Reply::ClockSpent => Ok(Reply::ClockSpent),
            Reply::SetFull => Ok(Reply::SetFull),
            Reply::StoreFailed => Ok(Reply::StoreFailed),
            Reply::Taken => Ok(Reply::Taken),
            Reply::Already => Ok(Reply::Already),
            Reply::Gap(id) => Ok(Reply::Gap(*id)),
            Reply::NotFromMember => Ok(Reply::NotFromMember),
            Reply::Installed => Ok(Reply::Installed),
            Reply::OldView => Ok(Reply::OldView),
            Reply::NotAPeer => Ok(Reply::NotAPeer),
            Reply::Ticked(outcomes) => Ok(Reply::Ticked(copy_outcomes(alloc, outcomes)?)),
            Reply::TickedStoreFailed(outcomes) => {
                Ok(Reply::TickedStoreFailed(copy_outcomes(alloc, outcomes)?))
            }
            Reply::NotLeader(id) => Ok(Reply::NotLeader(*id)),
            Reply::TimedOut => Ok(Reply::TimedOut),
            Reply::NoSuchOp => Ok(Reply::NoSuchOp),
        }
    }

    /// Whether an operation was opened.
    fn is_pending(&self) -> bool
        ensures { result ≡ is_pending self.now }
    {
        matches!(self, Reply::Pending(_))
    }

    /// What is replied where the store failed.
    fn failed(self) -> Reply
        ensures { result ≡ failed self }
    {
        match self {
            Reply::Ticked(outcomes) => Reply::TickedStoreFailed(outcomes),
            _ => Reply::StoreFailed,
        }
    }

    /// What is replied to a message.
    pub(crate) fn of_take(changed: bool) -> Reply
        ensures { meant result ≡ (if changed then Meant.Taken else Meant.Already) }
    {
        if changed {
            Reply::Taken
        } else {
            Reply::Already
        }
    }
}

/// What became of the entries that a step had to store.
#[derive(Clone, Copy, Debug, PartialEq, Eq)]
pub enum Fate {
    /// There were none.
    NoStore,
    /// The keeper took them.
    Stored,
    /// The keeper failed.
    StoreFailed,
}

/// Why a member made no step. It is then as before, but that its keeper may have been called.
#[derive(Clone, Copy, Debug, PartialEq, Eq)]
pub enum StepError {
    /// The member has made as many steps as it may.
    HistoryFull,
    /// Memory was refused.
    Memory,
}

impl From<Memory> for StepError {
    ghost use Rattle.std.specs.Prelude.{◌≡◌};
    ghost use Rattle.member_node.specs.declared.reply.StepError.TheVariants as StepError;

    ghost from_gives = { λ _ error. error ≡ StepError.Memory };

    fn from(_: Memory) -> StepError {
        StepError::Memory
    }
}

/// What a member answers: a reply, messages where there is something to tell, and the operation that ended by the step.
#[derive(Drop)]
pub struct Output<T: Replica> {
    pub reply: Reply,
    pub posts: Posts<T>,
    pub finished: Option<Finished>,
}

impl<T: Replica> Output<T> {
    ghost use Rattle.std.specs.Prelude.{◌≡◌, [], None, IfOk};
    ghost use Rattle.member_node.specs.Outputs.{failed, failed_output, after_fate};

    /// A reply alone.
    #[inline(always)]
    pub(crate) fn told(alloc: Global, reply: Reply) -> Output<T>
        ensures { result ≡ record { reply = reply; posts = []; finished = None } }
    {
        Output {
            reply,
            posts: Items::new(alloc),
            finished: None,
        }
    }

    /// What is answered where the store failed. An operation that was to be opened asks nobody, and a write is not
    /// acknowledged.
    #[inline(always)]
    fn fail(self) -> Output<T>
        ensures { result ≡ failed_output self }
    {
        if self.reply.is_pending() {
            return Output {
                reply: Reply::StoreFailed,
                posts: silenced(self.posts),
                finished: self.finished,
            };
        }
        Output {
            reply: self.reply.failed(),
            posts: refused_posts(self.posts),
            finished: self.finished,
        }
    }

    /// What is answered after this fate.
    #[inline(always)]
    pub(crate) fn after(self, fate: Fate) -> Output<T>
        ensures { result ≡ after_fate fate self }
    {
        match fate {
            Fate::StoreFailed => self.fail(),
            _ => self,
        }
    }

    /// An equal output.
    pub fn copy(&self, alloc: Global) -> Result<Output<T>, Memory>
        ensures { IfOk result (λ copy. copy ≡ self.now) }
    {
        let mut posts = Items::new(alloc);
        for post in self.posts.as_slice() {
            let message = post.message.copy(alloc)?;
            posts.push(Post {
                to: post.to,
                message,
            })?;
        }
        let reply = self.reply.copy(alloc)?;
        let finished = copy_finished(alloc, &self.finished)?;
        Ok(Output {
            reply,
            posts,
            finished,
        })
    }
}

/// No message in place of these.
fn silenced<T: Replica>(posts: Posts<T>) -> Posts<T>
    ensures { result ≡ [] }
{
    let mut posts = posts.into_vec();
    posts.clear();
    Items::from_vec(posts)
}

/// An acknowledgement of a write becomes its refusal; other messages stay.
fn refuse<T: Replica>(post: &mut Post<T>)
    ensures { post.new ≡ refused_post post.old }
{
    if let Message::WriteAck { op } = &post.message {
        let op = *op;
        post.message = Message::WriteNack { op };
    }
}

/// The same of each message.
fn refuse_all<T: Replica>(posts: &mut [Post<T>])
    ensures { posts.new ≡ map refused_post posts.old }
{
    for post in posts.iter_mut() {
        refuse(post);
    }
}

/// The messages, each acknowledgement of a write in them as its refusal.
fn refused_posts<T: Replica>(posts: Posts<T>) -> Posts<T>
    ensures { result ≡ map refused_post posts }
{
    let mut posts = posts.into_vec();
    refuse_all(posts.as_mut_slice());
    Items::from_vec(posts)
}
