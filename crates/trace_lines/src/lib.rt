//! Traces: what members recorded, held and showed, line by line, and what such a trace is in the model.
//!
//! A trace of any system can be put in these types, if its replicated values are of the six kinds.
#![tactic(auto)]

mod trace;

pub use trace::{Bytes, Keys, Trace, TraceAct, TraceLine, TraceLines};
