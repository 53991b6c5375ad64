//! Values that only grow: a set, a flag, and a register that keeps the last write.
//!
//! # What is promised, and by which contract
//!
//! - The growing set shows every element that some record adds, and refuses a new one exactly where
//!   it shows 256 or more; the flag is on exactly where some record switches on; the register shows
//!   the write with the greatest timestamp, and of those the least origin's (`impl Replica for
//!   GSet`, `Flag`, `LwwRegister`, and `SpelledData` for each).
#![tactic(auto)]

mod elements;
mod flag;
mod register;
mod set;
mod spelling;
mod timestamp;

pub use elements::{copied, find};
pub use flag::{Flag, SwitchedOn};
pub use register::{LwwRegister, Written};
pub use set::{GSet, MOST_ELEMENTS};
pub use timestamp::Timestamp;
