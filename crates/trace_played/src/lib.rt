//! The trace of a script's run: what each member recorded, held and showed, step by step.
//!
//! # What is promised, and by which contract
//!
//! - The text of a script without clients and settles, over the keepers of the places, and what became of
//!   them: the text is that of the trace of the script's run, with the answers that the keepers gave,
//!   and it spells that trace, which is lawful. The keepers were called as often as in that run, and
//!   each told table holds its place's store at its end, and nothing else. Where no count rose, it is
//!   the trace of the run with no failure. Where a keeper tells no table and the script has a restart,
//!   nothing is said of the text (`trace` (`IsPlayed`, `IsTraceOver`)).
#![tactic(auto)]

mod tracing;

pub use tracing::trace;
