use base_vectors::{Id, Seq, VersionVector};
use model_kinds::Op;

/// What a record does.
#[derive(Drop)]
pub enum Action {
    /// An operation on the value.
    Operation(Op),
    /// Takes over what a removed identity left.
    Prune(Id),
}

/// A record of a history.
#[derive(Drop)]
pub struct Record {
    /// Who made it.
    pub origin: Id,
    /// Which of its origin's records it is, from 1 on.
    pub number: Seq,
    /// What it does.
    pub action: Action,
    /// How many records of each identity its origin had taken before.
    pub past: VersionVector,
}
