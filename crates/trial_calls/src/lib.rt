//! Tests of the calls of lower crates: each on its happy path, each refusal of a text or a script, and calls that fail.
#![tactic(auto)]

#[cfg(test)]
mod clients;
#[cfg(test)]
mod delta_logs;
#[cfg(test)]
mod fields;
#[cfg(test)]
mod gathering;
#[cfg(test)]
mod generated;
#[cfg(test)]
mod keepers;
#[cfg(test)]
mod levels;
#[cfg(test)]
mod markers;
#[cfg(test)]
mod meanings;
#[cfg(test)]
mod same;
#[cfg(test)]
mod scripts;
#[cfg(test)]
mod streams;
#[cfg(test)]
mod vectors;
#[cfg(test)]
mod views;
