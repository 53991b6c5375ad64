//! Trials of the top call's scripts and reports, from the words to what is written: scripts of every kind by the word
//! `plain`, long ones with clients by `run`, limits and refusals, and what fails.
#![tactic(auto)]

#[cfg(test)]
mod carts_tests;
#[cfg(test)]
mod checking;
#[cfg(test)]
mod deleted_tests;
#[cfg(test)]
mod failing_tests;
#[cfg(test)]
mod full_tests;
#[cfg(test)]
mod kinds_tests;
#[cfg(test)]
mod largest_tests;
#[cfg(test)]
mod levels_tests;
#[cfg(test)]
mod limits_tests;
#[cfg(test)]
mod long_tests;
#[cfg(test)]
mod many_tests;
#[cfg(test)]
mod membership_tests;
#[cfg(test)]
mod printing_tests;
#[cfg(test)]
mod prune_tests;
#[cfg(test)]
mod refusal_tests;
#[cfg(test)]
mod running;
#[cfg(test)]
mod settle_tests;
