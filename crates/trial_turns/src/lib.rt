//! Trials of turns: what two turns take at the members of a world, one after the other.
#![tactic(auto)]

pub mod hearing;
