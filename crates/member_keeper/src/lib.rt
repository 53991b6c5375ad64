//! Where a member keeps its durable entries: what a keeper is, and one in memory.
//!
//! # What is promised, and by which contract
//!
//! - A store puts all entries or none, a load gives the table in the order of its keys, a clear
//!   empties it; a refusal leaves the table. What is told stays told, and of one type either every
//!   keeper tells its table or none. Each `Ok` and `Failed` joins the told answers, want of memory
//!   joins nothing. `Failed` comes only where the count of faults rose, and the count never falls
//!   (`Keeper::{store, load, clear}`).
//! - The keeper in memory tells its table and its answers, and fails exactly at the calls named,
//!   counted from 0 without those that wanted memory (`impl Keeper for MemoryKeeper`, clause
//!   `counts`).
//! - A table in memory has each key once, in the order of the keys' bytes; what was prepared is put
//!   without taking memory (`MemoryTable::{prepare, put_all, copies, clear}`).
#![tactic(auto)]

mod calls;
mod keeper;
mod memory;
mod search;
mod stored;
mod table;

pub use keeper::{Keeper, KeeperError};
pub use memory::MemoryKeeper;
pub use stored::{Bytes, Stored};
pub use table::MemoryTable;
