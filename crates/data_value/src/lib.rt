//! The data of a key, as one replicated data type: a value of any of the six kinds, or that the key
//! was deleted.
//!
//! # What is promised, and by which contract
//!
//! - A value of one of the six kinds does what the kind's own type does; an operation fits exactly
//!   where it is one of the kind (`impl Replica for Value`, `impl SpelledData for Value`).
//! - The data of a key do what its value does until a delete. A delete fits every kind and wins over
//!   every value that it meets; nothing is left then but the kind, no operation fits, and no
//!   identity is kept from being pruned (`impl Replica for Data`, `impl SpelledData for Data`).
#![tactic(auto)]

mod data;
mod data_spelled;
mod replica;
mod spelled;
mod value;

pub use data::{Data, Delta};
pub use value::{Change, Value};
