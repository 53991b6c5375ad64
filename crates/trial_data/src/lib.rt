//! Trials: entries that take updates, merges, groups and prunes at random show what their records mean.
//!
//! # What is promised, and by which contract
//!
//! - Three questions for a digest, a change and a fourth question make two digests, of any entry
//!   (`four_questions` of the trials).
#![tactic(auto)]

#[cfg(test)]
mod cluster;
#[cfg(test)]
mod deleted;
#[cfg(test)]
mod digest_times;
#[cfg(test)]
mod digests;
#[cfg(test)]
mod forgotten;
#[cfg(test)]
mod member;
#[cfg(test)]
mod pruned_set;
#[cfg(test)]
mod spellings;
#[cfg(test)]
mod stored;
#[cfg(test)]
mod tests;
