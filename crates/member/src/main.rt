//! One member of a cluster as a process of its own: lines on standard input ask it for steps and bring it messages, and it
//! writes the messages that it sends, and its replies, as lines on standard output.
#![tactic(auto)]

use std::process::ExitCode;

fn main(rt: HostRuntime) -> ExitCode {
    top_member::run(&rt)
}
