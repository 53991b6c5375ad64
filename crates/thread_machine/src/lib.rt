//! Machines that make one step after another, and the entries of their histories.
//!
//! # What is promised, and by which contract
//!
//! - A step that is made is one of the machine's; both answers are equal; the count of faults rose
//!   where the fate says so; a refusal is one that the machine may have there, and leaves state and
//!   told outside (`Machine::step`).
//! - Each entry of a replayed history is a step of the machine from a replay of the entries before
//!   it (`entries_are_steps`).
#![tactic(auto)]

pub mod entry;
pub mod laws;
pub mod machine;
pub mod machines;
