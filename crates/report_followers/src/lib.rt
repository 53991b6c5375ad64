//! The report of a script whose clients follow keys: the lines of its steps, those of requests to follow a key, and after the line of
//! a flush that is done a line for each notice.
//!
//! # What is promised, and by which contract
//!
//! - The text of such a script's run over the keepers of the places is the report that `theorem_watching` defines, with the answers
//!   that the keepers gave; they were called as often as in that run, and each told table holds its place's store at its end.
//!   Where no count rose, it is the report without failures. The run of the steps that members take part in is that of the script
//!   without the others, so what is proved of every run is so of it. Where a keeper tells no table and the script has a restart,
//!   nothing is said of the text (`report_with_followers` (`IsPlayed`, `IsFollowedOver`)).
#![tactic(auto)]

mod lines;
mod playing;

pub use playing::report_with_followers;
