//! Majority writes and reads, and when operations finish. There is no code here: the functions carry the theorems.
#![tactic(auto)]

mod borders;
mod laws;

pub use borders::borders_of_quorums;
pub use laws::{operations_finish, quorum_theorem, quorum_theorem_of_scripts};
