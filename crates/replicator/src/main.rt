//! Runs the script on standard input and prints its report: by the word `plain` a script without clients, and by `run` one that
//! may have them. `behind N` runs one without clients, with `N` stores handed on together. `gen N` prints a generated script, and
//! `sum N` the end of the report of its run.
#![tactic(auto)]

use std::process::ExitCode;

fn main(rt: HostRuntime) -> ExitCode {
    top_program::run(&rt)
}
