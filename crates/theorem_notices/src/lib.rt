//! What clients that follow keys are told in every run of a script. There is no code here: the functions carry the theorem.
//!
//! # What is promised, and by which contract
//!
//! - Each notice is the meaning of what its member then holds, the histories of one subscription's notices rise, successive
//!   notices differ, and the last one is what was shown at the last flush (`notices_follow_what_is_held`).
//! - Who subscribes anew was told nothing before (`subscribing_begins_untold`).
//! - A worked script meets every premise (`notices_are_met`).
#![tactic(auto)]

mod laws;

pub use laws::{notices_are_met, notices_follow_what_is_held, subscribing_begins_untold};
