//! The program of one member over the runtime: its words, its keeper, its standard streams and its status.
//!
//! What the words ask for, and what is told on standard error, no contract says.
#![tactic(auto)]

mod changes;
mod ended;
mod opening;
mod running;
mod words;

pub use running::run;
