//! Trials of members: random histories in which they update, send, take, leave, install and prune; steps with stores; marks; and how long a member lives.
#![tactic(auto)]

#[cfg(test)]
mod ages;
#[cfg(test)]
mod company;
#[cfg(test)]
mod histories;
#[cfg(test)]
mod marks;
#[cfg(test)]
mod running;
#[cfg(test)]
mod steps;
