//! The one spelling of deltas as bytes, and how it is read.
//!
//! # What is promised, and by which contract
//!
//! - A delta has one spelling, behind the byte that tells what it is and behind its origin; what is
//!   spelled is read again, whatever follows it, and only that, and what is read is of the origin;
//!   else the answer is the place of the first field that is cut short or breaks its rule
//!   (`SpelledDelta`).
//! - So it is of each of the six kinds, of a value of any kind, and of the data of a key, which may
//!   have been deleted (impls of `SpelledDelta`).
#![tactic(auto)]

mod counters;
mod data;
mod growing;
mod sets;
mod spelled_delta;
mod values;

pub use spelled_delta::SpelledDelta;
