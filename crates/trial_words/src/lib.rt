//! Trials of the top call's words, from the words to what is written: which words there are, `gen` and `sum`, scripts with
//! clients by `run`, in the runtime's threads, clients that follow keys by `watch`, stores that are written behind, stored
//! entries in both formats, and both outputs on inputs that a person got wrong.
#![tactic(auto)]

#[cfg(test)]
mod behind_tests;
#[cfg(test)]
mod checking;
#[cfg(test)]
mod everywhere_tests;
#[cfg(test)]
mod flag;
#[cfg(test)]
mod gate_tests;
#[cfg(test)]
mod meeting_tests;
#[cfg(test)]
mod one_client_tests;
#[cfg(test)]
mod upgrade_tests;
#[cfg(test)]
mod watching_tests;
#[cfg(test)]
mod words_tests;
#[cfg(test)]
mod wrong_inputs_tests;
