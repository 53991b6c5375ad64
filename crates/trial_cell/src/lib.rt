//! Trials of cells: tallies with a shelf that may fail, to which two clients add in a thread each.
//!
//! # What is promised, and by which contract
//!
//! - A tally under a lock: a call is answered by the total there, in a history in which the session
//!   then knows its entry; a look shows the total after all that the session then knows there.
//!   After two clients in two threads the totals are those of the histories, and what a shelf told
//!   at the start it tells at the end, as the fates say (`Locked::add`, `Locked::look`, `by_two`).
#![tactic(auto)]

pub mod clients;
#[cfg(test)]
mod hearing_tests;
pub mod locked;
pub mod shelf;
pub mod tally;
#[cfg(test)]
mod tests;
