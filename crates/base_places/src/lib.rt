//! What is spelled one behind the other, and how it is read at places among bytes.
//!
//! # What is promised, and by which contract
//!
//! - What is read at a place is told with the place after it; a fault is told by its place
//!   (`read_at`).
//! - Two values one behind the other, a list behind the number of its items, and what there may be
//!   behind 0 or 1 have one spelling where their parts have one (laws `pair_spells`, `list_spells`
//!   and `option_spells` of `specs/`).
#![tactic(auto)]

mod places;

pub use places::read_at;
