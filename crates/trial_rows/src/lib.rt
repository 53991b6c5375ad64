//! What trials of the top call are made of: words, streams and keepers in memory, texts that are built of sections, and what
//! is answered.
//!
//! # What is promised, and by which contract
//!
//! - There is a keeper for each of the eight places (`keepers`, `loading_keepers`).
//! - An answer is as it should be exactly where its status and the bytes that were written are (`says`).
#![tactic(auto)]

mod loading;
mod rows;
mod running;

pub use loading::{LoadingKeeper, loading_keepers};
pub use rows::{
    Answer, MANY, Number, Row, Section, Streams, answered, build, keepers, printed, printed_of,
    says, streams, words,
};
pub use running::{called, ran};
