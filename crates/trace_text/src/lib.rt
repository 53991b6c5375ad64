//! Traces as JSON texts: what the bytes of a text say that members recorded, held and showed, and the text of a trace.
//!
//! # What is promised, and by which contract
//!
//! - The trace that the bytes spell, or the first line that has not its form (`read_trace`).
//! - The text of a trace: compact, with the names of each object in byte order, and a newline
//!   (`trace_text`).
//! - The texts of worked traces (`worked_texts`).
#![tactic(auto)]

mod acts;
mod fault;
mod fields;
mod keys;
mod known;
mod lines;
mod read;
mod rows;
mod text;
mod written;

pub use read::{TraceError, read_trace};
pub use rows::worked_texts;
pub use text::trace_text;
