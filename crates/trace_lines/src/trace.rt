use base_bytes::{Items, Text};
use base_vectors::{Id, VersionVector};
use model_kinds::Op;
use script_reading::ScriptKey;

/// The bytes of a text of any length.
pub type Bytes = Items<u8>;

/// The declared keys, as in a script.
pub type Keys = Items<ScriptKey>;

/// The lines of a trace, in their order.
pub type TraceLines = Items<TraceLine>;

/// What a member does with a key.
#[derive(Drop)]
pub enum TraceAct {
    /// It makes a record of an operation.
    Record(Op),
    /// It makes a record that prunes a removed identity.
    Prune(Id),
    /// It holds so many records of each identity.
    Hold(VersionVector),
    /// It shows this text.
    Show(Bytes),
}

/// A line: who does what with which key.
#[derive(Drop)]
pub struct TraceLine {
    pub at: Id,
    pub key: Text,
    pub act: TraceAct,
}

/// A trace: the declared keys, and what members did, in order.
#[derive(Drop)]
pub struct Trace {
    pub keys: Keys,
    pub lines: TraceLines,
}
