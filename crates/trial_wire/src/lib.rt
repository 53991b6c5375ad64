//! Trials: messages and views that another encoder made, cut, changed and broken; bytes at random; and what an honest member
//! would not send.
#![tactic(auto)]

#[cfg(test)]
mod accepting;
#[cfg(test)]
mod messages;
#[cfg(test)]
mod rows;
#[cfg(test)]
mod views;
