//! How many members an operation needs, and who has answered it.
//!
//! # What is promised, and by which contract
//!
//! - How many members a level needs of so many, as the model says it; it refuses exactly a level
//!   that needs more than there are. For at least one member the number is from 1 to all of them
//!   (`needed`).
//! - A tally has counted the asking member from the start, and each identity that answers once; it
//!   is done exactly where as many distinct ones as it needs have answered (`Tally::{new,
//!   answer}`).
#![tactic(auto)]

mod level;
mod tally;

pub use level::{Level, TooFew, needed};
pub use tally::{Progress, Tally};
