//! Clients beside each other: each makes its commands at the members of a cluster, in order, and tells one line of each.
//!
//! # What is promised, and by which contract
//!
//! - Clients beside each other, each in the session of its number. With Ok each made its commands
//!   in order, and each command has a line: its entry stands in what the client then knows, with
//!   the answer that the line tells, and what it sent; what it opened has ended as the line tells;
//!   what it sent is taken, or a history was full; a command that made no step had no running
//!   member, no such view or no room (`run_clients`, clause `ok` (`AreAllPlayed`, `IsPath`,
//!   `HasMade`, `Ends`)).
//! - For want of memory all sessions come back, and know no less. What each client did are its first
//!   commands, as above, and of the next one a part: no call; or its entry, and then takes; or its
//!   entry, takes and the timeout of what it opened, after all that allows it (`run_clients`,
//!   clauses `err`, `stopped` (`AreStopped`, `WasStopped`)).
#![tactic(auto)]

mod calling;
mod client;
mod clients;
mod desk;
mod ending;
mod gate;
mod telling;
mod turning;
mod working;

pub use clients::{Played, run_clients};
pub use gate::{Gate, OpenGate};
