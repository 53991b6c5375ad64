//! Traces of runs: that each is lawful, and what it tells. There is no code here: the functions carry the theorems.
#![tactic(auto)]

mod laws;

pub use laws::{traces_of_runs_are_lawful, traces_tell_runs};
