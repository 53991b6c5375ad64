//! What a settle leaves. There is no code here: the functions carry the theorem.
#![tactic(auto)]

mod laws;

pub use laws::{settle_theorem, settle_theorem_of_scripts};
