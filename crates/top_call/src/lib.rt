//! The top call: from the words of the command line, and the bytes of a script on a source, to the bytes of a report on a sink.
#![tactic(auto)]

mod answer;
mod behind;
mod checking;
mod due;
mod laws;
mod running;
mod status;
mod top;
mod tracing;
mod upgrading;
mod watching;
mod words;

pub use laws::{
    reads_of_runs_include_writes, scripts_are_within_bounds, settles_of_runs_are_so, the_headline,
    the_headline_of_scripts, traces_are_found_lawful,
};
pub use status::Status;
pub use top::{Outcome, replicate, replicate_plain};
pub use words::Asked;
