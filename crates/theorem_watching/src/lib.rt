//! Scripts with subscriptions: clients follow keys at members, and each flush tells them what changed.
//!
//! # What is promised, and by which contract
//!
//! - Worked scripts have the reports that the definitions compute (`worked_subscriptions`).
//! - The members of such a script do what they do in the script of its other steps (`subscriptions_change_nothing`): so what is
//!   proved of every run of a script is so of these.
#![tactic(auto)]

mod followship;
mod laws;

pub use followship::Followship;
pub use laws::{subscriptions_change_nothing, worked_subscriptions};
