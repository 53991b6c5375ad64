//! Client threads over the members of a world, and the world after them.
//!
//! # What is promised, and by which contract
//!
//! - What clients do in a world is a thread section of the world's model: the lines are those of a
//!   section of these clients, with the answers that the keepers gave, and the world that is left
//!   stands for its end. For want of memory the keepers come back in their order (`play_section`
//!   (`PlaysSection`, `GivesBack`)).
#![tactic(auto)]

mod giving;
mod lines;
pub mod places;
mod playing;

pub use playing::play_section;
