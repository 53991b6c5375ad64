//! Trials: keepers over sqlite, in memory and over files, that are opened again, in use, or over a database that refuses.
#![tactic(auto)]

#[cfg(test)]
mod calls;
#[cfg(test)]
mod files;
#[cfg(test)]
mod keeping;
#[cfg(test)]
mod refusing;
