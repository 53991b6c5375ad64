//! Hints: where in a refused script the fault is, for whoever wrote it.
//!
//! That a text is refused, and by which rule, is for `script_reading` to say. A hint looks at that place again and names what is
//! wrong there: where the text is no JSON, or which name of which step is missing, unknown or out of its range. Of a script that
//! breaks no rule, a step may be told that is likely a slip of the pen. Nothing else rests on either.
//!
//! # What is promised, and by which contract
//!
//! - A hint is told only of bytes that spell no script (`hint`).
#![tactic(auto)]

mod broken;
mod clients;
mod fault;
mod keys;
mod names;
mod place;
mod script;
mod slips;
mod stands;
mod steps;
mod telling;
mod wanted;
mod wrong;

pub use telling::{hint, slip};
