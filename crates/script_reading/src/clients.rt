use crate::ask::Ask;
use crate::script::Step;
use base_bytes::{Items, Text};
use base_vectors::Id;

/// What a client asks of a member.
#[derive(Drop)]
pub struct Command {
    pub at: Id,
    pub ask: Ask,
}

/// A command that stands so many times, 1 to 1,024.
#[derive(Drop)]
pub struct Repeated {
    pub command: Command,
    pub times: u32,
}

/// The commands of a client in their order: 1 to 1,024, counted with their times.
pub type Client = Items<Repeated>;

/// Which steps with clients a script may have.
#[derive(Clone, Copy, Debug, PartialEq, Eq)]
pub enum Clients {
    /// Those in which clients are at work at once.
    Allowed,
    /// None.
    Refused,
    /// Those by which clients follow keys.
    Following,
}

/// One step of a script.
#[derive(Drop)]
pub enum RunStep {
    /// A step that the script makes by itself.
    Plain(Step),
    /// These clients, 1 to 8, are at work at once.
    Threads { clients: Items<Client> },
    /// A client follows a key at a member from now on.
    Subscribe { at: Id, client: u32, key: Text },
    /// A client follows a key at a member no more.
    Unsubscribe { at: Id, client: u32, key: Text },
}
