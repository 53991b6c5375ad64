//! The program over the runtime: its words, its standard streams, its databases and its status.
//!
//! # What is promised, and by which contract
//!
//! - The words behind the program's name, all of them; what the top call says of the exit status,
//!   the source, the sink and the keepers, for these words (`words_behind_name`, `outcome`).
#![tactic(auto)]

mod keepers;
mod outcome;
mod remembering;
mod telling;
mod words;

use crate::keepers::keepers;
use crate::outcome::outcome;
use crate::remembering::Remembering;
use crate::telling::{clients_of, tell};
use crate::words::words_behind_name;
use base_outside::{StdSink, StdSource};
use std::process::ExitCode;
use std::rt::Env;
use std::sync::Wait;
use std::thread::Threads;
use std::{env, io};
use top_call::Status;

/// Runs the program on the standard streams, over a database in memory for each place, and answers its exit status. Where that is not
/// the first, one line on standard error says why, for a person; and where it is, one may say where the script has a slip.
pub fn run<R: Env + Input + Print + Eprint + AllocGlobal + Threads + Wait + Sync>(
    rt: &R,
) -> ExitCode {
    let words = words_behind_name(rt.alloc(), env::args(rt));
    let clients = clients_of(&words);
    let mut source = Remembering::new(rt.alloc(), StdSource::new(rt.reader()));
    let mut sink = StdSink::new(io::writer(rt));
    let code = match keepers(rt.alloc()) {
        Ok(keepers) => outcome(rt, rt.alloc(), words, &mut source, &mut sink, keepers),
        Err(_) => ExitCode::from(u8::from(Status::Memory)),
    };
    tell(rt, code, clients, source.bytes());
    code
}
