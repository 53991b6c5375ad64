//! Operations of client threads: each call of a client stands once, each operation finishes, and gets include what was
//! seen. There is no code here: the functions carry the theorems.
#![tactic(auto)]

mod laws;

pub use laws::{calls_stand_once, client_operations_finish, gets_include_seen};
