ghost use Rattle.std.specs.Prelude.{◌≡◌};

/// The kind of a message.
#[derive(Clone, Copy, Debug, PartialEq, Eq)]
pub enum MessageKind {
    Deltas,
    Nack,
    Status,
    Gossip,
    Write,
    WriteAck,
    WriteNack,
    Read,
    ReadAnswer,
}

/// What is printed of a message: its kind and the lengths of up to two lists. A length that the kind lacks is 0.
#[derive(Clone, Copy, Debug, PartialEq, Eq)]
pub struct Sketch {
    pub kind: MessageKind,
    pub first: usize,
    pub second: usize,
}

impl Sketch {
    /// A kind alone.
    pub(crate) fn bare(kind: MessageKind) -> Sketch
        ensures { result ≡ record { kind = kind; first = 0; second = 0 } }
    {
        Sketch {
            kind,
            first: 0,
            second: 0,
        }
    }
}
