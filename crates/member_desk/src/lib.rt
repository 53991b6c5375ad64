//! The subscriptions of one member: which clients follow which keys, and what each is told after a flush.
//!
//! # What is promised, and by which contract
//!
//! - A client that subscribes follows the key and was told nothing; one that follows it already stays as it is. An unsubscribe
//!   ends what its client was told. Neither touches another subscription, and a refusal changes nothing
//!   (`Desk::subscribe`, `Desk::unsubscribe`; `subscribing_touches_one`, `unsubscribing_ends_one`).
//! - After a flush a client gets a notice exactly where the member has a record of the key, and the client was told nothing of
//!   it, or something else than its history means now. Notices come by keys in byte order and then clients rising. A refusal
//!   leaves the desk as it was (`Desk::notices`, `IsToldBy`, `AreInOrder`).
//! - Of one subscription, successive notices show different values, the last one shows what was found last, and histories rise
//!   where the member's do (`notices_follow_what_is_found`, `histories_of_notices_rise`).
#![tactic(auto)]

mod client;
mod desk;
mod followed;
mod laws;
mod look;
mod notice;
mod place;
mod tell;
mod values;

pub use client::Subscribed;
pub use desk::Desk;
pub use laws::{
    histories_of_notices_rise, notices_follow_what_is_found, subscribing_touches_one,
    subscriptions_stand, unsubscribing_ends_one, worked_subscription,
};
pub use notice::{Notice, Notices};
