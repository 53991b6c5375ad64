//! A member: what it does with its own inputs and with the messages of its peers.
//! Each step is one of the model, as `specs/Steps.antt` says.
//!
//! # What is promised, and by which contract
//!
//! - One step for each input (update and get at a level, take of a message, install of a view,
//!   flush, gossip, tick, timeout of an operation). For every member of the model that the member
//!   stands for, and every input of the model that the input stands for, in every log that holds the
//!   next entries' records and in which their histories are exactly pruned: the member after the step
//!   stands for the model's next one after the same input and what became of the store, the reply,
//!   the messages and the operation that ended by it are the model's, and where the keeper tells its
//!   table, it tells it with the durable entries that changed put in format 2, or as it was if the
//!   store failed. Nothing of another kind than its key's, and nothing of an undeclared key, has any
//!   effect, and a write of it is not answered: it stands for a message that brings nothing, or for a
//!   write of a key that the model's member doesn't declare and so doesn't answer (`Node::step`,
//!   clause `step` (`IsStepOf`, `TellsWrite`)).
//! - Each input has its own list of replies, and none but those is ever given; nothing but a message
//!   that is taken ends an operation (`Node::step`, clauses `reply` (`CanReply`), `ends` (`CanEnd`)).
//! - For each input there is a call with an answer of its own, `Node::update` and others. It makes the
//!   step for that input, whose reply is what the answer says (`told_by`).
//! - A look at the number of an operation tells whether it is open in the model, or else the
//!   model's first result of that number, if there is one (`Node::look` (`LooksAt`)).
//! - A member may forget how operations ended: those of the numbers below a given one, up to the
//!   first that is still open. It then stands for the model's member without these ends, and is else
//!   as before (`Node::forget`, clauses `forgotten` (`forgotten_to`), `stands`
//!   (`StandsForgetting`), `same`).
//! - A running member may be told of one more key, which is no step. A key of a new name then stands
//!   before the first with a later name, without records; the others are held as they were, and the
//!   member stands for the model's with that key. A key that is declared already stays as it is, and
//!   the answer says whether it was declared so (`Node::declare`, clause `declared` (`Declares`)).
//! - The keeper is called once where something is to be stored, and else not; a reply tells `store
//!   failed` exactly where that call failed. All memory is taken before that call, so a step that
//!   the keeper took is never refused (`Node::step` (`IsStepOf.called`, `unchanged`), `Fate`).
//! - A step is refused as full exactly after 16,384 steps, and else for want of memory alone; the
//!   member is then as before, but for its keeper, which tells what it told (`Node::step`, clauses
//!   `full`, `refusal`, `unchanged`).
//! - A new member has no record. One that is loaded stands for the model's, over the store that its
//!   keeper's table holds; it has its own identity, view and no steps. What the keeper gives, whether
//!   it tells its table or not, is refused exactly at the first entry that is, in either format, no
//!   envelope of a declared durable key's kind, or names an identity that was not given or is the
//!   new one's; what holds a store of a run is never refused. Else each key holds what was given for
//!   it, and no more. After a refusal the old member comes back, but for its keeper (`Node::new`,
//!   `Node::loaded` (`HoldsGiven`, `IsDamaged`)).
//! - A member that is made from a keeper alone, as in a process that starts again, stands for the
//!   model's that has loaded the store of the keeper's table, where it tells one; after a refusal
//!   the keeper comes back (`Node::from_keeper`).
#![tactic(auto)]

mod answering;
mod answers;
mod calls;
mod change;
mod closing;
mod counting;
mod declaring;
mod entries;
mod from_keeper;
mod gossip;
mod groups;
mod held;
mod in_place;
mod input;
mod keeping;
mod key;
mod loading;
mod node;
mod opening;
mod operation;
mod operations;
mod outcome;
mod places;
mod plan;
mod preparing;
mod recording;
mod reply;
mod restoring;
mod sending;
mod shown;
mod storing;
mod taking;
mod ticking;

pub use answers::{
    Answered, Closed, Gossiped, Got, Installed, Pruned, Received, UpdateRefusal, Updated,
};
pub use declaring::Declared;
pub use from_keeper::FromKeeperError;
pub use input::Input;
pub use key::{KeyDecl, KeyState};
pub use loading::LoadError;
pub use member_messages::{
    Entries, Groups, Keyed, Message, MessageKind, Post, Posts, Sketch, Texts,
};
pub use member_quorum::Level;
pub use node::{HIGHEST_LIMIT, MOST_STEPS, Node};
pub use operation::{Finished, Look, OperationResult};
pub use outcome::{KeyOutcome, Outcome, Outcomes};
pub use reply::{Fate, Output, Reply, StepError};
