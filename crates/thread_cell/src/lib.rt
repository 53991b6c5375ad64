//! Machines that threads share, each under a lock of its own, and what each lock and each thread knows of all of them.
//!
//! # What is promised, and by which contract
//!
//! - A new table has a cell for each machine, which has seen nothing, and a session for each
//!   client, numbered from 0; all sessions are of the table that the name stands for. For want of
//!   memory the machines come back (`Unnamed::new`, `Unnamed::named`).
//! - One call adds exactly one entry to the cell's history, at its end: with the input, the
//!   session's client number, the answer of the step, and a stamp one above the greater of both
//!   clocks. The receipt says where it stands and what it answers. Cell and session then know the
//!   same, and all that either knew; the session's calls grew by this one, which was none of them,
//!   and it had not known the entry (`Cell::accept`, clause `ok` (`Accepts`)).
//! - It is refused as full exactly where the history has 16,384 entries; otherwise for want of
//!   memory, or for a reason that the machine may have at this input. Refused, cell and session
//!   have seen what they had, the calls stay, and the machine is the same, or after its own refusal
//!   unchanged in state and told outside (`Cell::accept`, clauses `full`, `refused`, `unmade`,
//!   `err`).
//! - **Always so of a cell**: its machine is a replay of its history from the machine that the
//!   table began with there (the told outside too, as steps say what becomes of it); the failed
//!   fates are at most as many as the count of faults rose, unless that stands at its last value;
//!   stamps rise along the history; the cell's clock is at least each stamp that it knows, and at
//!   most the number of entries that it knows, so at most 131,072 (`Cell::facts`, the type's
//!   invariant (`IsCell`, `Began`, `IsReplay`, `Rises`, `IsTimed`)).
//! - A note is a copy of what a cell or a session has seen, no more and no less; whoever meets it
//!   has then seen the longer history at each place, and keeps its own history, machine and calls
//!   (`Cell::note`, `Session::note`, `Cell::meet`, `Session::meet`).
//! - `entry`, `length` and `machine` read the cell; `into_machine` gives up its place (these
//!   calls). On a lent cell a history is read by `entry` alone, and each read is counted
//!   (`Cell::entry`, clause `steps`).
//! - Closing takes all cells and all sessions of the table. Each machine is a replay of its place's
//!   history; each session's calls are, each once, the entries with its client's number; all
//!   together they are all entries, each once; what any session or cell had seen are beginnings of
//!   the histories, and a cell's own history is whole. For want of memory cells and sessions come
//!   back as they were (`close`, clauses `places`, `own`, `calls`, `sessions`, `cells`, `err`).
#![tactic(auto)]

mod beginning;
pub mod calls;
pub mod cell;
pub mod closing;
mod ending;
pub mod histories;
pub mod name;
pub mod note;
pub mod opening;
pub mod reading;
pub mod receipt;
pub mod rule;
pub mod session;
pub mod spot;
pub mod table;
pub mod unnamed;
pub mod view;
