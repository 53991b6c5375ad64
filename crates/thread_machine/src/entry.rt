use crate::machine::Machine;

/// A step that was made.
///
/// `client` is the number of the client that it was made for. Stamps rise along a history, and from each entry that a
/// client had seen to those that it made after.
#[derive(Drop)]
pub struct Entry<M: Machine> {
    pub input: M::Input,
    pub fate: M::Fate,
    pub output: M::Output,
    pub stamp: u64,
    pub client: u32,
}

impl<M: Machine> Entry<M> {
    ghost use Rattle.std.specs.Prelude.{◌≡◌};

    /// An entry with these parts.
    pub fn new(
        input: M::Input,
        fate: M::Fate,
        output: M::Output,
        stamp: u64,
        client: u32,
    ) -> Entry<M>
        ensures { result ≡ record { input = input; fate = fate; output = output; stamp = stamp; client = client } }
    {
        Entry {
            input,
            fate,
            output,
            stamp,
            client,
        }
    }
}
