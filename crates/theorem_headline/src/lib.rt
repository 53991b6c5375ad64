//! The headline: what holds of each run of a script, in one statement. There is no code here: the function carries the theorem.
#![tactic(auto)]

mod laws;

pub use laws::{the_headline, the_headline_is_met};
