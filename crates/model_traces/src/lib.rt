//! Traces: what members record, hold and show, which traces are lawful, and the trace of a run. There is no code here: contracts cite `specs/`.
#![tactic(auto)]

mod laws;

pub use laws::{last_pasts_are_enough, lawful_traces_are_consistent, tests_say, verdicts};
