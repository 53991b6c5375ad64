//! What members send each other, and what is printed of it.
//!
//! # What is promised, and by which contract
//!
//! - A message is plain data: a copy equals it, a sketch is its kind and lengths (`Message::copy`,
//!   `sketch`).
#![tactic(auto)]

mod copying;
mod message;
mod sketch;

pub use message::{Digest, Digests, Entries, Groups, Keyed, Message, Post, Posts, Texts};
pub use sketch::{MessageKind, Sketch};
