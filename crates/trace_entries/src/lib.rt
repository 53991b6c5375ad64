//! What a recorder of traces sees of an entry: how many records of each identity a member holds of a key, and what it shows.
//!
//! # What is promised, and by which contract
//!
//! - A recorder saw that a member held what its entry stands for, or showed what that means, if it has a
//!   record (`see_entry` (`Sees`, `looked_at`)); that it did something, showed a value, or showed that
//!   the key is deleted (`see`, `see_value`, `see_deleted`).
#![tactic(auto)]

mod entries;
mod values;

pub use entries::{Look, see_entry};
pub use values::{see, see_deleted, see_value};
