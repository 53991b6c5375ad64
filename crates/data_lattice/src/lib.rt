//! What every replicated data type offers, and what its data and answers mean over histories.
//!
//! # What is promised, and by which contract
//!
//! - What every replicated data type promises, as the contracts and laws of one trait: joins are
//!   commutative, associative and idempotent; a delta does what it was made of; after each call the
//!   data are those of the history that follows; what is shown is the history's meaning
//!   (`Replica`).
//! - Of any data, also those of no history: what was cleaned or pruned away is mentioned no more,
//!   and nothing comes to be mentioned but what a joined side mentions, and the origin of a record
//!   or a delta (laws `empty_mentions` to `pruned_unmentioned` of `Replica`).
//! - Data are closed exactly where the history deletes the key. Closed data stay so whatever they
//!   join, take or prune; no operation fits them, they mention nobody, show that the key was deleted,
//!   and keep no identity from being pruned (`Replica::closed`, laws `closed_joined` to
//!   `closed_unblocked`, `closed_means`).
//! - What every data type promises that can be spelled: one byte and one spelling, which are
//!   functions of the kind and the history; what is read is spelled so, and what is spelled is read
//!   again, whatever follows it (`SpelledData`).
#![tactic(auto)]

mod answers;
mod replica;
mod spelled;

pub use answers::{ApplyError, PruneError};
pub use replica::Replica;
pub use spelled::SpelledData;
