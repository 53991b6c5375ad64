//! What the calls of a member answer: for each its own type, with nothing in it that the call can't come to.

ghost use Rattle.std.specs.Prelude.{◌≡◌, Bool, IsTrue};
ghost use Rattle.member_node.specs.Answerable.{is_of_update, is_of_get, is_of_take, is_of_install, is_of_gossip, is_of_tick, is_of_timeout};
ghost use Rattle.member_node.specs.declared.reply.Reply.{Reply};
ghost use Rattle.member_node.specs.Calls.{told_by, updated_reply, got_reply, received_reply, installed_reply, gossiped_reply, pruned_reply, closed_reply};

use crate::operation::Finished;
use crate::outcome::Outcomes;
use crate::reply::{Output, Reply};
use base_vectors::Id;
use data_lattice::Replica;
use member_messages::Posts;
use model_kinds::Shown;
use thiserror::Error;

/// What came of a call, the messages that it sends (at most one to each other member of the view), and the operation that
/// ended by it, if one did. Nothing but a message that is received ends one.
#[derive(Drop)]
pub struct Answered<T: Replica, A> {
    pub answer: A,
    pub posts: Posts<T>,
    pub finished: Option<Finished>,
}

/// What a call can come to. Each of it is what one reply says.
pub(crate) trait Answer {
    ghost says: { Self → Reply };

    // The replies that say something of it.
    ghost is_said: { Reply → Bool };

    /// What the reply says.
    fn of(reply: Reply) -> Self
        requires { IsTrue (Self.is_said reply) }
        ensures { Self.says result ≡ reply };
}

impl<T: Replica, A: Answer> Answered<T, A> {
    /// The output of a step, with what its reply says in the place of the reply.
    pub(crate) fn of(output: Output<T>) -> Answered<T, A>
        requires { IsTrue (A.is_said output.reply) }
        ensures { told_by A.says result ≡ output }
    {
        let Output {
            reply,
            posts,
            finished,
        } = output;
        let answer = A::of(reply);
        Answered {
            answer,
            posts,
            finished,
        }
    }
}

/// What came of an update.
#[derive(Clone, Copy, Debug, PartialEq, Eq)]
pub enum Updated {
    /// It was made, and is with the keeper if the key is durable.
    Done,
    /// It was made, and the operation of this number waits until enough members have it.
    Pending(u64),
    /// It was made, and the keeper failed, so that what it changed was not kept. No other member was asked.
    NotStored,
    /// Nothing changed.
    Refused(UpdateRefusal),
}

/// Why an update changed nothing.
#[derive(Clone, Copy, Debug, PartialEq, Eq, Error)]
pub enum UpdateRefusal {
    /// The key is not declared.
    #[error("the key is not declared")]
    UnknownKey,
    /// The key is deleted.
    #[error("the key is deleted")]
    Deleted,
    /// The operation is not one of the key's kind.
    #[error("the operation is not one of the key's kind")]
    WrongKind,
    /// The level asks for more members than the view has.
    #[error("the view has too few members")]
    TooFew,
    /// The own share of a counter and the amount add to more than `2^63 - 1`.
    #[error("the counter is too great")]
    Overflow { share: u64, amount: u64 },
    /// The set shows 256 elements or more, and the added one is none of them.
    #[error("the set is full")]
    SetFull,
    /// The timestamp of the register is `2^63 - 1` already.
    #[error("the register's clock is spent")]
    ClockSpent,
}

/// What came of a read.
#[derive(Drop)]
pub enum Got {
    /// The value of the key.
    Value(Shown),
    /// The key is deleted.
    Deleted,
    /// The key has no record.
    Nothing,
    /// The operation of this number waits for the entries of other members.
    Pending(u64),
    /// The key is not declared.
    UnknownKey,
    /// The level asks for more members than the view has.
    TooFew,
}

/// What came of a message.
#[derive(Clone, Copy, Debug, PartialEq, Eq)]
pub enum Received {
    /// It changed an entry, or was one that asks or acknowledges.
    Taken,
    /// It changed no entry. It may have been answered.
    Already,
    /// A group of it needs a record of this identity, which the member lacks.
    Gap(Id),
    /// The sender is no member, and nothing changed.
    NotFromMember,
    /// It was taken, and the keeper failed, so that what it changed was not kept.
    NotStored,
}

/// What came of a view.
#[derive(Clone, Copy, Debug, PartialEq, Eq)]
pub enum Installed {
    /// It is the member's own now.
    Installed,
    /// Its number is not greater than that of the member's own, which stays.
    OldView,
    /// It is the member's own now, and the keeper failed, so that what changed of the entries was not kept.
    NotStored,
}

/// What came of a gossip.
#[derive(Clone, Copy, Debug, PartialEq, Eq)]
pub enum Gossiped {
    /// The digests are among the messages that are sent, if an entry has records.
    Told,
    /// The receiver is no other member of the view.
    NotAPeer,
}

/// What came of a tick, at each key for each identity that left.
#[derive(Drop)]
pub enum Pruned {
    /// What the tick made of them.
    Ticked(Outcomes),
    /// The same, and the keeper failed, so that what changed was not kept.
    NotStored(Outcomes),
    /// This other member leads the view, and nothing changed.
    NotLeader(Id),
}

/// What came of a timeout.
#[derive(Clone, Copy, Debug, PartialEq, Eq)]
pub enum Closed {
    /// The operation was open, and is closed.
    Closed,
    /// No operation of this number is open.
    NoSuchOp,
}

impl Answer for Updated {
    ghost says = { updated_reply };

    ghost is_said = { is_of_update };

    fn of(reply: Reply) -> Updated {
        match reply {
            Reply::Done => Updated::Done,
            Reply::Pending(op) => Updated::Pending(op),
            Reply::StoreFailed => Updated::NotStored,
            Reply::UnknownKey => Updated::Refused(UpdateRefusal::UnknownKey),
            Reply::Deleted => Updated::Refused(UpdateRefusal::Deleted),
            Reply::WrongKind => Updated::Refused(UpdateRefusal::WrongKind),
            Reply::TooFew => Updated::Refused(UpdateRefusal::TooFew),
            Reply::Overflow { share, amount } => {
                Updated::Refused(UpdateRefusal::Overflow { share, amount })
            }
            Reply::SetFull => Updated::Refused(UpdateRefusal::SetFull),
            Reply::ClockSpent => Updated::Refused(UpdateRefusal::ClockSpent),
            _ => unreachable!(),
        }
    }
}

impl Answer for Got {
    ghost says = { got_reply };

    ghost is_said = { is_of_get };

    fn of(reply: Reply) -> Got {
        match reply {
            Reply::Value(shown) => Got::Value(shown),
            Reply::Deleted => Got::Deleted,
            Reply::NotFound => Got::Nothing,
            Reply::Pending(op) => Got::Pending(op),
            Reply::UnknownKey => Got::UnknownKey,
            Reply::TooFew => Got::TooFew,
            _ => unreachable!(),
        }
    }
}

impl Answer for Received {
    ghost says = { received_reply };

    ghost is_said = { is_of_take };

    fn of(reply: Reply) -> Received {
        match reply {
            Reply::Taken => Received::Taken,
            Reply::Already => Received::Already,
            Reply::Gap(id) => Received::Gap(id),
            Reply::NotFromMember => Received::NotFromMember,
            Reply::StoreFailed => Received::NotStored,
            _ => unreachable!(),
        }
    }
}

impl Answer for Installed {
    ghost says = { installed_reply };

    ghost is_said = { is_of_install };

    fn of(reply: Reply) -> Installed {
        match reply {
            Reply::Installed => Installed::Installed,
            Reply::OldView => Installed::OldView,
            Reply::StoreFailed => Installed::NotStored,
            _ => unreachable!(),
        }
    }
}

impl Answer for Gossiped {
    ghost says = { gossiped_reply };

    ghost is_said = { is_of_gossip };

    fn of(reply: Reply) -> Gossiped {
        match reply {
            Reply::Done => Gossiped::Told,
            Reply::NotAPeer => Gossiped::NotAPeer,
            _ => unreachable!(),
        }
    }
}

impl Answer for Pruned {
    ghost says = { pruned_reply };

    ghost is_said = { is_of_tick };

    fn of(reply: Reply) -> Pruned {
        match reply {
            Reply::Ticked(outcomes) => Pruned::Ticked(outcomes),
            Reply::TickedStoreFailed(outcomes) => Pruned::NotStored(outcomes),
            Reply::NotLeader(id) => Pruned::NotLeader(id),
            _ => unreachable!(),
        }
    }
}

impl Answer for Closed {
    ghost says = { closed_reply };

    ghost is_said = { is_of_timeout };

    fn of(reply: Reply) -> Closed {
        match reply {
            Reply::TimedOut => Closed::Closed,
            Reply::NoSuchOp => Closed::NoSuchOp,
            _ => unreachable!(),
        }
    }
}
