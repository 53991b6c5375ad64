use crate::ask::Ask;
use crate::clients::RunStep;
use base_bytes::{Items, Text};
use base_vectors::Id;
use model_kinds::Kind;

/// A key that a script declares.
#[derive(Drop)]
pub struct ScriptKey {
    /// The name, 1 to 32 bytes of `a` to `z`, `0` to `9`, `_` and `-`.
    pub key: Text,
    /// What values the key has.
    pub kind: Kind,
    /// Whether the key's values are stored.
    pub durable: bool,
}

/// A step that a script makes by itself.
#[derive(Drop)]
pub enum Step {
    /// A member is asked.
    Ask {
        at: Id,
        ask: Ask,
    },
    /// The message of this number on a link is delivered, or the next one where no number is given.
    Deliver {
        from: Id,
        to: Id,
        index: Option<u32>,
    },
    /// The next message on a link is lost.
    Lose {
        from: Id,
        to: Id,
    },
    /// The messages that are due on all links are delivered.
    Round,
    /// A member is to give up its open operation of this number, below `2^32`.
    Timeout {
        at: Id,
        op: u64,
    },
    /// A member is to leave.
    Remove {
        id: Id,
    },
    /// A new member is to start at a free place, 0 to 7, with nothing stored.
    Join {
        place: u8,
    },
    /// A member is to stop, and a new one to start in its place with what was stored there.
    Restart {
        id: Id,
    },
    /// All members are to take up the last view and to tell each other what they have, and the leader is to prune what is left of
    /// members that left.
    Settle,
}

/// A script: how many members there are at the start, the declared keys, and the steps in their order.
#[derive(Drop)]
pub struct Script {
    pub members: u8,
    pub keys: Items<ScriptKey>,
    pub steps: Items<RunStep>,
}
