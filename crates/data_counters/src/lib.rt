//! Counters: one that only grows, as a share per identity, and one that moves both ways, as two of these.
//!
//! # What is promised, and by which contract
//!
//! - The growing counter keeps all of them: its sum is, for every exactly pruned history, the sum
//!   of the increments (`impl Replica for GCounter`, `impl SpelledData for GCounter`).
//! - The counter that moves both ways: what was added less what was taken. A prune moves both parts
//!   or neither; plus is tried before minus (`impl Replica for PnCounter`, `impl SpelledData for
//!   PnCounter`).
#![tactic(auto)]

mod amounts;
mod counter;
mod replica;
mod shares;
mod signed;
mod spelled;

pub use amounts::Amount;
pub use counter::{GCounter, PnCounter, PnShare, Share};
