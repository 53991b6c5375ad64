//! The eight places with members or spare keepers, and the links between identities: what one member's step does to them.
//!
//! # What is promised, and by which contract
//!
//! - A step of a member over the links is one of its contract: what it sends goes to the ends of its
//!   links, in their order, and is told; the links of others stay. Where it refuses, neither the
//!   member nor a link has changed (`step_on`, `take_on` (`IsStepOnLinks`, `IsUnchanged`)).
//! - What is said of a link is what was sent on it, all of it; a write to one link leaves the others
//!   as they are (`Links::message`, `Links::append`, `Links::set_next`, `Links::pass`
//!   (`ChangesOne`)).
//! - Keepers that are to forget all do so in the order of their places. The first that refuses is
//!   told with its place: those before it have forgotten all, and those behind it were not called
//!   (`clear_all` (`Clears`)).
//! - A member that starts at a place has no record, the program's limit of steps and the place's
//!   spare keeper; the other places stay. A refusal leaves each member and each keeper where it was
//!   (`seat`, `seat_first` (`Seats`, `AreFirstSeats`)).
#![tactic(auto)]

mod links;
mod sending;
mod sent;
mod start;

pub use links::Links;
pub use sending::{Answered, step_on, take_on};
pub use sent::{SentTo, Sketches};
pub use start::{FirstParts, clear_all, clear_at, first_parts, put_by, seat, seat_first};
