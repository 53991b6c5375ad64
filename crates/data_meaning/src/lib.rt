//! What a history means, computed from the definitions alone: slow, and without a word of the data types that members hold.
//!
//! # What is promised, and by which contract
//!
//! - The meaning of a history given as the list of its records, in any order, is what the
//!   definition says; every history is such a list (`meaning`, `histories_are_lists`).
#![tactic(auto)]

mod by_kind;
mod counts;
mod deletes;
mod elements;
mod laws;
mod record;
mod switches;
mod timestamps;
mod touches;

pub use by_kind::meaning;
pub use laws::histories_are_lists;
pub use record::{Action, Record};
