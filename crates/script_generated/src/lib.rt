//! Generated scripts: for a number of steps, one script in which five members change two counters, a set and a register in turn, and its text.
//!
//! # What is promised, and by which contract
//!
//! - The generated script of a number of steps, which keeps the bounds of scripts and has no
//!   clients; its text, compact JSON and a newline (`generated`, `generated_text`).
//! - The text is read as the script (`reads_back`).
#![tactic(auto)]

mod laws;
mod script;
mod text;

pub use laws::reads_back;
pub use script::generated;
pub use text::generated_text;
