//! Marks of identities that are being pruned, or were.
//!
//! # What is promised, and by which contract
//!
//! - Merging of pruning marks; both kinds of mark as bytes, the identities rising (`Markers`,
//!   `Marker`, `Markers::{spell, read}`).
//! - Whether there is a mark, one that was begun, or the same performed ones; no identity from the
//!   limit on has one (`Markers::{is_empty, has_begun, same_performed, limit}`).
#![tactic(auto)]

mod marker;
mod markers;
mod spelling;

pub use marker::Marker;
pub use markers::Markers;
