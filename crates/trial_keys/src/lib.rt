//! Trials of single calls of a member, each as it goes and as it is refused; and of the keys of one: declared while it runs, and many at once.
#![tactic(auto)]

#[cfg(test)]
mod acts;
#[cfg(test)]
mod calls;
#[cfg(test)]
mod declaring;
#[cfg(test)]
mod handing;
#[cfg(test)]
mod many;
#[cfg(test)]
mod seats;
#[cfg(test)]
mod views;
