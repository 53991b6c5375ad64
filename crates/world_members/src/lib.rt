//! Members, their keepers and the links between them: what a script's steps do to them, as the model says it.
//!
//! # What is promised, and by which contract
//!
//! - Wherever a script is that the world means (a run of the model from its first world, for which
//!   the world stands in all logs of the way), the world after a step means where the model's step
//!   leads, with the answers that the keepers of the places gave in this step; the events are the
//!   model's lines. So a value that a member shows is the meaning of what it took, restarts and
//!   removed members included. An event says which operation of the member ended by it, and how
//!   (`World::step` (`Plays`, `Means`, `LeadsTo`)).
//! - Once a running member has a prune of an identity at a key, each later envelope of that key at
//!   that member, anywhere on the script's way, has it too, and mentions the identity neither in
//!   its versions nor in its data (`the_removed_never_returns` (`IsHeld`, `HasPruned`,
//!   `IsWithout`)).
//! - Each place has the member of the last view there, with the program's limit of steps, or a
//!   spare keeper; each keeper told its answers after those before, no more of them failures than
//!   its count of faults rose; a keeper that tells its table goes on telling it, and it spells its
//!   place's store (`World` (`AreSeated`), `World::step` (`Plays.kept`, `Keeps`),
//!   `StandsForWorld.stores`).
//! - A restart over a keeper that tells its table is never answered with a damaged key; where a key
//!   is damaged, nothing changed (`World::step` (`Plays.does`, `damaged`)).
//! - After want of memory the world means what it meant; of a round and of a settle, what was done
//!   stands; a join may have made the keeper of its place forget (`World::step` (`Remains`)).
//! - The first world: each of the eight keepers forgot all, in the order of the places. One that
//!   fails is named; those before it have forgotten all, and those behind it were not called
//!   (`World::start` (`Starts`, `RefusesStart`)).
//! - The keepers come back in the order of their places (`World::into_keepers`).
#![tactic(auto)]

mod client_line;
mod event;
mod exchanges;
mod laws;
mod membership;
mod outcomes;
mod parts;
mod playing;
mod rounds;
mod settling;
mod start;
mod world;

pub use client_line::{ClientLine, Ended, Section};
pub use event::{Answer, Event, Events, Head};
pub use laws::the_removed_never_returns;
pub use parts::{EmptySeats, Parts};
pub use playing::input_of;
pub use start::StartError;
pub use world::World;
pub use world_places::{Links, SentTo, Sketches};
