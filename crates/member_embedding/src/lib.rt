//! What a service needs that uses a member by itself, with a transport of its own: the member, its keys, inputs and outputs,
//! views, values and keepers, the bytes of messages and views, and who is told of changed values.
//!
//! # What is promised, and by which contract
//!
//! - Whether a list of keys has no two of one name, as a new member asks of it (`are_distinct`).
//! - What is read of the bytes of a message stands for what was posted, and taking it for taking that
//!   (`arrives_as_posted`): a transport that hands over as from a member what it posted to this one,
//!   in any order, again or never, does what a run's links do.
#![tactic(auto)]

mod distinct;
mod wire;

pub use base_bytes::{Items, Memory, Text, TooLong};
pub use base_vectors::Id;
pub use data_envelope::Envelope;
pub use data_value::Data;
pub use distinct::are_distinct;
pub use member_acceptance::accepts;
pub use member_codec::{CodecError, read_message, read_view, spell_message, spell_view};
pub use member_desk::{Desk, Notice, Notices, Subscribed};
pub use member_keeper::{Keeper, KeeperError, MemoryKeeper, Stored};
pub use member_node::{
    Answered, Closed, Declared, Fate, Finished, FromKeeperError, Gossiped, Got, HIGHEST_LIMIT,
    Input, Installed, KeyDecl, KeyOutcome, KeyState, Level, LoadError, Look, MOST_STEPS, Message,
    Node, OperationResult, Outcome, Outcomes, Output, Post, Posts, Pruned, Received, Reply,
    StepError, UpdateRefusal, Updated,
};
pub use member_sqlite::{FileKeeper, OpenError, SqliteKeeper, StoreKeeper, Unknown, Wary};
pub use member_views::{Member as Seat, View, ViewError, ViewList};
pub use member_write_behind::WriteBehind;
pub use model_kinds::{Kind, Moment, Op, Shown};
pub use report_texts::push_shown;
pub use wire::arrives_as_posted;
