ghost use Rattle.std.specs.Prelude.{◌≡◌};

use crate::moment::Moment;
use base_bytes::Text;

/// An operation on a key. Which of them belong to a kind is said by `fits` of `specs/SixKinds.antt`; a delete belongs to all.
#[derive(Drop)]
pub enum Op {
    /// Adds to a counter.
    Increment(u64),
    /// Takes from a counter.
    Decrement(u64),
    /// Adds an element to a set.
    Add(Text),
    /// Removes an element from a set.
    Remove(Text),
    /// Switches a flag on.
    Enable,
    /// Writes the text of a register, by a clock that stands at `now`.
    Assign { text: Text, now: Moment },
    /// Deletes the key, whatever its kind.
    Delete,
}

impl Op {
    /// An equal operation, which takes no memory.
    pub fn copied(&self) -> Op
        ensures { result ≡ self.now }
    {
        match self {
            Op::Increment(amount) => Op::Increment(*amount),
            Op::Decrement(amount) => Op::Decrement(*amount),
            Op::Add(element) => Op::Add(element.copied()),
            Op::Remove(element) => Op::Remove(element.copied()),
            Op::Enable => Op::Enable,
            Op::Assign { text, now } => Op::Assign {
                text: text.copied(),
                now: *now,
            },
            Op::Delete => Op::Delete,
        }
    }
}
