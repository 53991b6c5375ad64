//! Hints: where in a refused trace the fault is, for whoever wrote it.
//!
//! That a text is no trace, or that a line breaks a rule, is for `trace_judged` to say. A hint looks at that line again and names
//! what has not its form there, or who does what that breaks the rule. Nothing else rests on it.
//!
//! # What is promised, and by which contract
//!
//! - A hint is told only of bytes that are a JSON text and spell no lawful trace (`hint`).
#![tactic(auto)]

mod form;
mod keys;
mod lines;
mod rules;
mod telling;
mod values;
mod wrong;

pub use telling::hint;
