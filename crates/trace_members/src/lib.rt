//! What a recorder of traces sees of a world: what each step made, what running members then hold, and what they show.
//!
//! # What is promised, and by which contract
//!
//! - A recorder of a world has its keys, and has seen nothing (`recorder_of` (`Saw`)).
//! - Wherever a script is that a step led to where the world means, with these events, the recorder saw of
//!   the step what the model has (`see_step` (`SeesStep`)); and at the end what members show (`see_end`
//!   (`SeesEnd`)).
#![tactic(auto)]

mod keys;
mod members;
mod steps;
mod watching;

pub use watching::{recorder_of, see_end, see_step};
