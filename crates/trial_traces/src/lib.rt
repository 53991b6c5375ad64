//! Trials of the checker of traces: each rule, each refusal of the form, logs by hand, and the words `check` and `trace`.
#![tactic(auto)]

#[cfg(test)]
mod form_tests;
#[cfg(test)]
mod hint_tests;
#[cfg(test)]
mod log_tests;
#[cfg(test)]
mod rows;
#[cfg(test)]
mod rule_tests;
#[cfg(test)]
mod shown_tests;
#[cfg(test)]
mod traced_tests;
#[cfg(test)]
mod word_tests;
