use base_bytes::Items;
use base_vectors::Id;
use member_node::Sketch;

/// A message that was sent: to whom, and what is printed of it.
#[derive(Clone, Copy, Debug, PartialEq, Eq)]
pub struct SentTo {
    pub to: Id,
    pub sketch: Sketch,
}

/// The messages that a step sent, in the order of their receivers.
pub type Sketches = Items<SentTo>;
