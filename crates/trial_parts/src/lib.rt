//! What trials are made of: numbers at random, operations, records with what they mean, and spellings of entries.
//!
//! # What is promised, and by which contract
//!
//! - A shown value is told as meant exactly where it is what those of the records mean that a
//!   version vector counts; an operation at random is one of its kind (`Records::mean`,
//!   `operation`).
#![tactic(auto)]

mod operations;
mod random;
mod records;
mod shown;
mod spellings;

pub use operations::operation;
pub use random::Random;
pub use records::Records;
pub use spellings::{
    DELETED, DOTS, MARKED, PRUNED, SET, SHARE, SIGNED, SWITCH, TEXTS, UNWRITTEN, WRITTEN, bytes_of,
};
