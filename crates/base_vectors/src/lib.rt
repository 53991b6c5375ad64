//! Identities, dots and version vectors.
//!
//! # What is promised, and by which contract
//!
//! - A version vector is a map from identities to numbers; join keeps the greater number at each
//!   identity; the order of two vectors; which identity is lacking first (`VersionVector`,
//!   `IdSet`).
//! - Every identity from the limit on has no number; whether two vectors have the same numbers
//!   (`VersionVector::{limit, same}`, `Numbers::limit`).
//! - Identities, sets of these and numbers at identities as bytes, spelled in rising order and read
//!   only so; no barred identity is read (`VersionVector::{spell, read}`, `read_identity`,
//!   `read_positive` and their like).
#![tactic(auto)]

mod fields;
mod id;
mod id_set;
mod numbers;
mod reading;
mod vector;
mod words;

pub use fields::{read_identity, read_positive};
pub use id::{Dot, IDENTITIES, Id, Seq};
pub use id_set::IdSet;
pub use numbers::Numbers;
pub use vector::{Order, VersionVector};
