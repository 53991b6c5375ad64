//! A keeper that gathers stores, and hands them to another keeper together.
//!
//! # What is promised, and by which contract
//!
//! - With a period of N, what is stored waits until N stores are together, and the inner keeper is
//!   then handed the last value of each key, in one store. Its table is the inner one with what is
//!   pending put over it, and it fails only where the inner keeper does; a refusal leaves both as
//!   they were (`impl Keeper for WriteBehind`, `WriteBehind::flush`).
//! - A stop loses what is pending (`WriteBehind::stop`). Whatever calls were made: what the inner
//!   keeper holds then are the first of the accepted stores since the last accepted clear, all of
//!   them but the last N - 1 at most, and each that was accepted before the last accepted flush
//!   (`WriteBehind::run_stores`, clause `ok`).
#![tactic(auto)]

mod calls;
mod write_behind;

pub use calls::{Answered, Answers, StoreCall, StoredList};
pub use write_behind::WriteBehind;
