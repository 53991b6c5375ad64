use crate::event::{Answer, Head};
use crate::world::World;
use base_bytes::Items;
use data_lattice::Replica;
use member_keeper::Keeper;
use member_node::Finished;
use world_places::Sketches;

/// How an operation ended that a client's command opened.
#[derive(Drop)]
pub enum Ended {
    /// By the answers to it.
    Finished(Finished),
    /// The client gave it up.
    TimedOut { op: u64 },
    /// Not at all: its member had made as many steps as it may.
    LeftOpen { op: u64 },
}

/// One line of a client's: the command, what came of it, the messages that were sent, and how the operation ended that it
/// opened.
#[derive(Drop)]
pub struct ClientLine {
    pub client: u32,
    pub head: Head,
    pub answer: Answer,
    pub sent: Sketches,
    pub ended: Option<Ended>,
}

/// What clients left: the world, and the lines of the first client in their order, then those of the next.
#[derive(Drop)]
pub struct Section<T: Replica, K: Keeper> {
    pub world: World<T, K>,
    pub lines: Items<ClientLine>,
}
