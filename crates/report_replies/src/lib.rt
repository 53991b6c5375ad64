//! Texts of what a member replies, and of an operation that ended, as reports show them.
//!
//! # What is promised, and by which contract
//!
//! - The text of a reply is the model's for what the reply means; an operation that ended is told by
//!   its number and its result (`push_reply`, `push_finished`, `push_result`).
#![tactic(auto)]

mod replies;

pub use replies::{push_finished, push_reply, push_result};
