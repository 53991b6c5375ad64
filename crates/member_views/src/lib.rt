//! Numbered views: who is a member, and where.
//!
//! # What is promised, and by which contract
//!
//! - Each removal, join and restart appends the model's next view and answers its number and
//!   identity; refusals come exactly for their cause, and want of memory only where the change
//!   could have been made; after a refusal the list is as before. An undo takes the last view away
//!   (`ViewList::{new, remove, join, replace, undo}`).
//! - The last view and the view of a number; the leader, whether an identity is a member, whether a
//!   place is taken, where a member runs. Every view is sound (`IsView`), and each has its place in
//!   the list as its number (`AreViews`) (`ViewList::{last, get}`, `View::{leader, contains,
//!   is_taken, place_of, number, given, members, copy}`).
#![tactic(auto)]

mod list;
mod view;

pub use list::{ViewError, ViewList};
pub use view::{Member, PLACES, View};
