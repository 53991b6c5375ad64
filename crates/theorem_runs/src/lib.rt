//! What holds in every run of the model. There is no code here: the functions carry the theorems.
#![tactic(auto)]

mod laws;

pub use laws::{
    logs_throughout, members_have_histories, nothing_is_lost, nothing_is_passed_over,
    pruning_safety, same_taken_same_shown, scripts_are_runs, sound_views,
};
