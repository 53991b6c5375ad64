ghost use Rattle.std.specs.Prelude.{◌≡◌, IfOk};

use base_bytes::{Items, Memory, Text};
use base_vectors::Id;
use std::alloc::Global;

/// What a tick of the leader made of the records of one identity that left.
#[derive(Clone, Copy, Debug, PartialEq, Eq)]
pub enum Outcome {
    /// The mark was made, or made anew for the leader's view.
    Marked,
    /// The records were pruned, and the leader has what they counted.
    Performed,
    /// This is the least member that has not seen the mark.
    Waiting(Id),
    /// The shares of the leader and of the one that left add to more than `2^63 - 1`; nothing changed.
    Blocked {
        owner_share: u64,
        removed_share: u64,
    },
    /// A mark of a later view stands; nothing changed.
    Newer,
}

impl Outcome {
    ghost use Rattle.member_node.specs.Ticking.{is_prune};

    /// Whether it is a prune, which is a record.
    pub(crate) fn is_prune(&self) -> bool
        ensures { result ≡ is_prune self.now }
    {
        matches!(self, Outcome::Performed)
    }
}

/// An outcome, with its key and the identity that left.
#[derive(Drop)]
pub struct KeyOutcome {
    pub key: Text,
    pub removed: Id,
    pub outcome: Outcome,
}

/// Outcomes by key, then by the identity that left.
pub type Outcomes = Items<KeyOutcome>;

/// Equal outcomes.
pub(crate) fn copy_outcomes(alloc: Global, outcomes: &Outcomes) -> Result<Outcomes, Memory>
    ensures { IfOk result (λ copy. copy ≡ outcomes.now) }
{
    let mut copies = Items::new(alloc);
    for told in outcomes.as_slice() {
        copies.push(KeyOutcome {
            key: told.key.copied(),
            removed: told.removed,
            outcome: told.outcome,
        })?;
    }
    Ok(copies)
}
