//! Trials of hints: the line that is told of each way in which a text is refused, and that each refusal has one.
#![tactic(auto)]

#[cfg(test)]
mod clients_tests;
#[cfg(test)]
mod followers_tests;
#[cfg(test)]
mod mutant_tests;
#[cfg(test)]
mod rows;
#[cfg(test)]
mod script_tests;
#[cfg(test)]
mod slips_tests;
#[cfg(test)]
mod step_tests;
