//! What is to be said of the bytes of a trace: that they are none, which line breaks which rule first, or that it is lawful.
//!
//! # What is promised, and by which contract
//!
//! - The judgement is the one that reading and the definitions give, on all bytes (`judged`), and
//!   there is no other (`judged_once`).
#![tactic(auto)]

mod judging;
mod laws;

pub use judging::{Judgement, judged};
pub use laws::judged_once;
