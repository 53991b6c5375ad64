//! The checker of traces: whether a trace is lawful, and else which line breaks which rule first.
//!
//! # What is promised, and by which contract
//!
//! - The verdict is the one that the definitions give, on every trace (`check`).
#![tactic(auto)]

mod breaking;
mod checking;
mod key_history;
mod prunes;
mod rows;
mod rules;
mod showing;
mod taking;

pub use checking::{Verdict, check};
