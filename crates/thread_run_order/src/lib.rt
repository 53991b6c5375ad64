//! The entries of members behind locks, put together again: by stamp, then place, they are one run, and the members go back
//! into their world.
//!
//! # What is promised, and by which contract
//!
//! - Histories whose stamps rise have a run order: all entries by stamp, and at one stamp by place
//!   (`histories_have_a_run_order`).
//! - A call of a session stands after all that the session had seen before it: whatever it knew then
//!   stands earlier in run order (`calls_follow_what_was_seen` (`FollowsAllSeen`)).
//! - What closed cells of a cluster leave is a section of the world that their members came from
//!   (`closed_cells_leave_a_section` (`IsSection`)).
//! - The world after a section has its members at their places, what they posted at the ends of the
//!   links, and has passed what they took where no message was pending before; for want of memory
//!   the keepers come back in their order (`finish` (`IsLeftOf`, `IsLeft`)).
//! - The entries of a section in run order are the events of a run of the model from that world,
//!   with the keepers' answers; each world with the members that they lead to, and with their posts
//!   on its links, stands for that run's end; and whatever replays a beginning of a member's
//!   history stands for the model's member after as many entries (`a_section_is_one_run`
//!   (`IsOneRun`)).
#![tactic(auto)]

mod ending;
pub mod laws;
mod passing;
mod posting;

pub use ending::finish;
