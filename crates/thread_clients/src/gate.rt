/// Is told when a client calls a member for a command, and when the call came back. It may hold the client meanwhile. Clients
/// are told by their numbers, and so are the commands of each, from 0 on.
pub trait Gate {
    /// The client is about to call.
    fn before(&self, client: u32, call: u32);

    /// The call came back.
    fn after(&self, client: u32, call: u32);
}

/// A gate that holds nobody.
#[derive(Clone, Copy, Debug)]
pub struct OpenGate;

impl Gate for OpenGate {
    fn before(&self, _client: u32, _call: u32) {}

    fn after(&self, _client: u32, _call: u32) {}
}
