//! The delta log of a key: a member's last own records, from which it sends delta groups.
//!
//! # What is promised, and by which contract
//!
//! - The delta log keeps the last 50 own records of a key, as their deltas or a placeholder for a
//!   prune, and what the member had of the others before the last of them. The group after a number
//!   is `Nothing` where the number is at least the last; else `TooOld` where the next record is not
//!   kept; else `NoDelta` where a prune is among the wanted; else it stands for the model's group,
//!   and needs exactly what that needs, and its delta is of its origin and of the key's kind
//!   (`DeltaLog::add`, `add_all`, `group`).
#![tactic(auto)]

mod combining;
mod delta_log;
mod grouped;
mod recent;
mod vectors;

pub use delta_log::{DeltaLog, NextRecord};
pub use grouped::Grouped;
pub use recent::MOST_KEPT;
