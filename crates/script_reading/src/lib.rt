//! Scripts: what the bytes of a JSON text say is to be done.
//!
//! A script is one JSON object of a number of members, a list of keys and a list of steps. Its rules have numbers,
//! and a text that is no script is refused with the first rule that it breaks and the step at which it does.
//!
//! # What is promised, and by which contract
//!
//! - The script that the bytes spell, or the first rule that they break and its step
//!   (`read_script`).
//! - A rule of the script as a whole is told only where those of lower numbers hold; one of a step
//!   only where all of the whole hold, and it is what the first step says that is not read
//!   (`rules_in_order`).
//! - A script of which clients are refused is read as one of which they are allowed, if it has
//!   none (`scripts_without_clients`).
#![tactic(auto)]

mod ask;
mod clients;
mod commands;
mod fault;
mod fields;
mod followers;
mod forms;
mod keys;
mod laws;
mod levels;
mod named;
mod operations;
mod read;
mod script;
mod steps;

pub use ask::Ask;
pub use clients::{Client, Clients, Command, Repeated, RunStep};
pub use commands::{MOST_CLIENTS, MOST_COMMANDS, MOST_TIMES};
pub use fault::Rule;
pub use fields::{LAST_IDENTITY, LAST_MOMENT, LAST_NUMBER, LAST_PLACE, MOST_ADDED, is_key_name};
pub use forms::plain;
pub use keys::kind_named;
pub use laws::{rules_in_order, scripts_without_clients};
pub use levels::MOST_NAMED;
pub use read::{MOST_KEYS, MOST_MEMBERS, ScriptError, read_script};
pub use script::{Script, ScriptKey, Step};
pub use steps::MOST_STEPS;
