//! The desks of a world: at each member which clients follow which keys, what each is told after a flush, and that subscriptions
//! end with their member.
//!
//! # What is promised, and by which contract
//!
//! - Wherever a script with subscriptions is that the world and the desks mean, a request to follow a key, or to follow it no
//!   more, is answered as the model answers it, and the desks then mean where the model's step leads (`Desks::subscribe`,
//!   `Desks::unsubscribe` (`Answers`, `Means`)).
//! - After a step of members, the subscriptions of members that run no more have ended, and those of all others stand
//!   (`Desks::end_with_members`).
//! - The notices of a flush are the model's, by keys in byte order and then clients rising, over the histories that the member
//!   then has (`Desks::notices` (`Tells`)).
//! - Which member's flush was done is told by the events of a step as it is by the model's lines (`flushed_in`).
#![tactic(auto)]

mod desks;
mod flushed;
mod seats;

pub use desks::Desks;
pub use flushed::flushed_in;
