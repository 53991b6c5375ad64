//! A set in which an add wins over a remove that hasn't seen it: elements with their dots, and no tombstones.
//!
//! # What is promised, and by which contract
//!
//! - The set in which an add wins: its dots are exactly the live adding records of the history,
//!   prunes included, so it shows exactly the elements that have one. It refuses a new element
//!   exactly where it shows 256 or more (`impl Replica for OrSet`, `impl SpelledData for OrSet`).
#![tactic(auto)]

mod calls;
mod dot_list;
mod dots;
mod elements;
mod reading;
mod replica;
mod set;
mod spelled;
mod spelling;

pub use dot_list::DotList;
pub use set::{OrSet, SetDelta};
