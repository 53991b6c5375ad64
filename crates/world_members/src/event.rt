use base_bytes::{Items, Text};
use base_vectors::Id;
use member_node::{Finished, Reply, Sketch};
use script_reading::Ask;
use world_places::Sketches;

/// What was done.
#[derive(Drop)]
pub enum Head {
    /// A member was asked.
    Asked {
        at: Id,
        ask: Ask,
    },
    /// A message was handed to its receiver. There is a sketch where there are the receiver and the message.
    Deliver {
        from: Id,
        to: Id,
        index: usize,
        sketch: Option<Sketch>,
    },
    /// All messages due were to be delivered, and there was none.
    Round,
    /// The next message due on a link was dropped.
    Lose {
        from: Id,
        to: Id,
        index: usize,
    },
    /// An open operation of a member was to be closed without a result.
    Timeout {
        at: Id,
        op: u64,
    },
    /// A member was to leave.
    Remove {
        id: Id,
    },
    /// A new member was to start at a place.
    Join {
        place: u8,
    },
    /// A member was to come back as a new one.
    Restart {
        id: Id,
    },
    /// All members were to agree.
    Settle,
}

/// What came of it.
#[derive(Drop)]
pub enum Answer {
    /// The member's reply.
    Reply(Reply),
    /// No member runs under the identity.
    Gone,
    /// The member has made as many steps as it may.
    HistoryFull,
    /// There is no view of this number.
    NoSuchView,
    /// No such message was sent.
    NoSuchMessage,
    /// The message was lost.
    Lost,
    /// No message was due.
    Nothing,
    /// The member left. This is the number of the view without it.
    View(u32),
    /// A new member runs under this identity, from the view of this number on.
    NewId { id: Id, view: u32 },
    /// No other member would be left.
    LastMember,
    /// A member runs at the place.
    PlaceTaken,
    /// All identities were given.
    TooManyIdentities,
    /// The keeper of the place failed when it was to forget all. Nothing changed.
    ClearFailed,
    /// The keeper of the place failed when it was to load. Nothing changed.
    LoadFailed,
    /// What the keeper of the place gave for this key is nothing that a member stored. Nothing changed.
    Damaged(Text),
    /// So many messages were sent, and so many outcomes of the leader's second tick are blocked.
    Settled { messages: usize, blocked: usize },
    /// A member that was to agree has made as many steps as it may.
    Stopped,
}

/// One line of a report: what was done and what came of it, the messages that were sent, and the operation of the member that
/// ended by it.
#[derive(Drop)]
pub struct Event {
    pub head: Head,
    pub answer: Answer,
    pub sent: Sketches,
    pub finished: Option<Finished>,
}

/// The lines of a step, in their order.
pub type Events = Items<Event>;
