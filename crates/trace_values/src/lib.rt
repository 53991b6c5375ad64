//! What a history of a key means, kept up to date record by record, so that what a member shows is told without a walk over what it holds.
//!
//! # What is promised, and by which contract
//!
//! - What is kept stands for the records made, from none on and after each record (`Values::new`,
//!   `Values::keep`).
//! - Of every history that is taken from these records what it means is told by how many records of
//!   each identity it has (`Values::value`).
#![tactic(auto)]

mod elements;
mod rising;
mod rows;
mod sets;
mod sums;
mod values;
mod writes;

pub use rows::{push_row, row_of};
pub use values::Values;
