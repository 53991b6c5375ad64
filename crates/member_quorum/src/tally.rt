ghost use Rattle.std.specs.Prelude.{◌≡◌, ◌≤◌, ◌↔◌};
ghost use Rattle.model_history.specs.Vector.{alone, with_member};
ghost use Rattle.base_vectors.specs.IdSets.{member_count};
ghost use Rattle.member_quorum.specs.Counts.{answered_by};

use base_vectors::{Id, IdSet};
use std::marker::Model;

/// Whether an operation has the answers that it needs.
#[derive(Clone, Copy, Debug, PartialEq, Eq)]
pub enum Progress {
    /// More members have to answer.
    Waiting,
    /// As many as it needs have answered.
    Done,
}

/// Who has answered an operation, and how many have to, the asking member included.
///
/// Contracts see the number needed, and the number whose bits are the identities that have answered.
#[derive(Clone, Copy, Debug, PartialEq, Eq)]
pub struct Tally {
    needed: usize,
    answered: IdSet,
}

impl Model for Tally {
    ghost use Rattle.member_quorum.specs.Counts.{Count};

    ghost Value = { Count };

    ghost view = { λ tally. record { needed = tally.needed; answered = tally.answered } };

    ghost inverse = { λ count. record { needed = count.needed; answered = count.answered } };
}

impl Tally {
    /// The asking member has answered, and so many have to.
    pub fn new(own: Id, needed: usize) -> Tally
        ensures needed { result.needed ≡ needed }
        ensures answered { answered_by result ≡ alone own }
    {
        let answered = IdSet::empty().with(own);
        Tally { needed, answered }
    }

    /// Counts the answer of a member, once for each identity.
    pub fn answer(&mut self, from: Id) -> Progress
        ensures needed { self.new.needed ≡ self.old.needed }
        ensures answered { answered_by self.new ≡ with_member (answered_by self.old) from }
        ensures progress { (result ≡ Progress.Done) ↔ (self.old.needed ≤ member_count (answered_by self.new)) }
    {
        self.answered = self.answered.with(from);
        if self.needed <= self.answered.len() as usize {
            Progress::Done
        } else {
            Progress::Waiting
        }
    }
}
