//! Worked traces: what runs of worked scripts leave, and which rule worked traces break. There is no code here: the function carries the rows.
#![tactic(auto)]

mod rows;

pub use rows::worked_traces;
