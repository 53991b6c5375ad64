//! What a recorder tells of what it sees of a run, and that this is the trace of the run. There is no code here: contracts cite `specs/`.
#![tactic(auto)]

mod laws;

pub use laws::what_is_told_is_the_trace;
