//! What explains a line of a report stands where the line does. There is no code here.
//!
//! The conclusions on majority gets and on settles name what they are drawn from: the event that tells a get's line, the run
//! that a settle is of. Nothing else is drawn from these parts, so no other proof would see a definition that leaves one out.
//!
//! # What is promised, and by which contract
//!
//! - What explains a get's line is an event of the get's own step, and not one of an earlier step with an equal line
//!   (`gets_are_explained_by_their_own_step`).
//! - The world that a settle leaves is the one from which the run goes on with the lines behind it, and not that of another
//!   schedule with the same lines before it (`runs_go_on_from_their_settles`).
#![tactic(auto)]

mod laws;

pub use laws::{gets_are_explained_by_their_own_step, runs_go_on_from_their_settles};
