//! A recorder of traces: it is told what is seen of members, line by line, and keeps what is news.
//!
//! # What is promised, and by which contract
//!
//! - Of the lines that it saw, a recorder has told those that are news, in their order: what is told of
//!   a whole run is the trace of the run, by `trace_told::what_is_told_is_the_trace`
//!   (`Recorder::see` (`Saw`)).
//! - What it has told keeps the bounds of every trace (`Recorder::see` (`IsFormed`)).
#![tactic(auto)]

mod recorder;
mod rows;

pub use recorder::Recorder;
